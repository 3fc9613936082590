// What a run of rewriting is: its steps, its ends, and what each leaves in the bank. In specs/ and proofs/; the code has only the words.
#![tactic(auto)]

pub mod oriented;
pub mod outcome;
