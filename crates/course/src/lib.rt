// The module against the plain reader, for a handler of any kind: which courses there are, and that every sample keeps to them.
#![tactic(auto)]
