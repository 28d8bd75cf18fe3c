// The meanings of document 01 stand in specs/; there is nothing to run.

#![tactic(auto)]
