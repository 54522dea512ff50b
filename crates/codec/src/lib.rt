// The laws of an image, over any state with an encoding that parses back. Definitions and theorems in specs/.
#![tactic(auto)]
