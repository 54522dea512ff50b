// What a read gives after a write, and what each write leaves alone: definitions and theorems, no code of its own.
#![tactic(auto)]
