// Laws of tests that proofs in many crates cite: definitions and laws, no code of its own.
#![tactic(auto)]
