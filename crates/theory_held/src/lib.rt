// Theorems about `since`, over the definitions of `rules`, in specs/ and proofs/. No function.
#![tactic(auto)]
