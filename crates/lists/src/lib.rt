// Membership in lists, in specs/ and proofs/: it has no code.
#![tactic(auto)]
