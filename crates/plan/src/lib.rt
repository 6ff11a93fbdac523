// Plans: the kind of each paragraph and the pages of each chapter. Definitions and theorems; no code.
#![tactic(auto)]
