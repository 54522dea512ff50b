// A record cut anywhere is read alike from each Start that is left in it: definitions and theorems, no code of its own.
#![tactic(auto)]
