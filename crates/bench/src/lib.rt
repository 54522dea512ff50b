// The bench examples as one table with one statement that is computed: definitions and a theorem, no code of its own.
#![tactic(auto)]
