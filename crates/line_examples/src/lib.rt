// Script lines worked out by hand from document 01's "The script program", with R-6 and R-9, and whole ranges, proved of the grammar and of the call by
// computation: specs/ has the table, proofs/ the theorems, and there is no code.

#![tactic(auto)]
