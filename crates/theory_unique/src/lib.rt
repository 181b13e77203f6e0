// Theorems about the contracts of the functions behind the public calls, in specs/. No function.
#![tactic(auto)]
