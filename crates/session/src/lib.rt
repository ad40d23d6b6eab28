// Document 01, "The session": demand 3. It is stated in specs/ and proved in proofs/; there is no code.
#![tactic(auto)]
