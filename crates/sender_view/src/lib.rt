// Clauses 7.2.2 and 7.9.2: the sender's state by value and its store of units, seen as FOP-1's variables, and the laws by which each action
// is the standard's. No function.
#![tactic(auto)]
