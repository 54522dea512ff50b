// The demands, said of the door's functions: statements and theorems, no code of its own.
#![tactic(auto)]
