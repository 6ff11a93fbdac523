// The canonical lines of a plan, and their BIN: definitions and theorems; no code.
#![tactic(auto)]
