// Document 01's worked examples, and theorems across the layers of channel coding and frames. No function.
#![tactic(auto)]
