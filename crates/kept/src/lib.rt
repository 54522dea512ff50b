// Every sample and every register access keeps a state a state: definitions and theorems, no code of its own.
#![tactic(auto)]
