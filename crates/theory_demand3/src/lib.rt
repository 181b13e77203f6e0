// Demand 3 on one page, in specs/, and its proof, in proofs/. No function.
#![tactic(auto)]
