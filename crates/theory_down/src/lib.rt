// Theorems about what is down, over the definitions of `rules`, in specs/ and proofs/. No function.
#![tactic(auto)]
