// Theorems about the definitions of `numbers`; the files stand in specs/ and proofs/, and there is no function.
#![tactic(auto)]
