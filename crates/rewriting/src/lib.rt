// The mathematics of reduction orders, in specs/ and proofs/: it has no code.
#![tactic(auto)]
