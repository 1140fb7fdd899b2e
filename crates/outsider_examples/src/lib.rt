// Examples alone: the theorems on outsiders and guessers apply to the lines of edges.

#![tactic(auto)]
