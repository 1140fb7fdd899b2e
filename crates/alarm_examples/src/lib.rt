// Alarm lines and reports worked out by hand from R-12, and whole ranges, proved of the definitions by computation: specs/ has the table, proofs/ the
// theorems, and there is no code.

#![tactic(auto)]
