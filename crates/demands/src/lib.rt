// Demands 2 and 3, stated and proved over every accepted book; there is nothing to run.

#![tactic(auto)]
