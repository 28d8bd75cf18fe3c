// Document 01's cases, computed from the definitions that the contracts cite, stand in proofs/; there is nothing to run.

#![tactic(auto)]
