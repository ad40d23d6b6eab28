// What the rows of table 7-8 on the sender's struct and store are to the table's own machine: definitions and proofs, no code.
#![tactic(auto)]
