// Theorems about the deadzone's report, over the definitions of `numbers` and `rules`, in specs/. No function.
#![tactic(auto)]
