// An accepted call through the door leaves a state's image: definitions and theorems, no code of its own.
#![tactic(auto)]
