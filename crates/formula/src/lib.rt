// A formula's text read against a signature: its role, its sign and its two sides as patterns.
#![tactic(auto)]

pub mod equation;
mod frame;
pub mod reading;
mod side;
mod symbol;
mod tokens;
mod uses;
mod variables;
