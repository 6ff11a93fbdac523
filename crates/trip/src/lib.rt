// Demand 2: an image loads as what it was written of. Theorems over `save` and `load` (specs/), and no code.
#![tactic(auto)]
