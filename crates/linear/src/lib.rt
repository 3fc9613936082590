// Instances of a term whose variables all count as different, in specs/ and proofs/: it has no code.
#![tactic(auto)]
