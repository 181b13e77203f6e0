// No function: the laws stand in specs/.
#![tactic(auto)]
