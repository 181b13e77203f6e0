// Theorems about partial hats and the old mark, over the definitions of `rules`, in specs/. No function.
#![tactic(auto)]
