// Group CNF text: definitions and laws, no code.

#![tactic(auto)]
