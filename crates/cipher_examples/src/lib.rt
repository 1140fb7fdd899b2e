// Worked examples of FIPS 197 as theorems: proofs/ has them, and there is no code.

#![tactic(auto)]
