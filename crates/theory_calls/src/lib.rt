// Theorems about the definitions of `rules`, in specs/. No function.
#![tactic(auto)]
