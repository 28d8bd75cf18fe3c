// The round rule: definitions and laws only.

#![tactic(auto)]
