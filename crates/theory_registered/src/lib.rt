// Theorems about registered pads, in specs/. No function.
#![tactic(auto)]
