// Demand 3: a built cartridge plays as its CFG reads. Definitions and theorems; no code.
#![tactic(auto)]
