// The plain form of a rule book stands in specs/, and that it is the book both ways in proofs/; there is nothing to run.

#![tactic(auto)]
