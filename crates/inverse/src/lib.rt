// That reading and writing undo each other, and that text to book to text to book ends with the same book, over the calls, stands in proofs/; there is nothing to run.

#![tactic(auto)]
