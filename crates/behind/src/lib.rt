// The plan behind an image: definitions and theorems; no code.
#![tactic(auto)]
