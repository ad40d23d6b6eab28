// Document 01, "The session": our own sender and receiver as its two ends, and demand 3 of them. Definitions and proofs, no code.
#![tactic(auto)]
