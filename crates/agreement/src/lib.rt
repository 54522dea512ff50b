// Demand 3: module and handler agree with the plain device. Definitions and theorems, no code of its own.
#![tactic(auto)]
