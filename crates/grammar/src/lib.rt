// The grammar of formulas, and a reader that hands out the formulas of a problem text.
#![tactic(auto)]

pub mod check;
pub mod machine;
pub mod part;
pub mod reader;
