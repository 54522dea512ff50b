// Set-up, every handler call and every run leave a state: definitions and theorems, no code of its own.
#![tactic(auto)]
