// Signatures: names, arities and weights, read from lines of text.
#![tactic(auto)]

mod line;
pub mod name;
pub mod signature;
pub mod symbol;
#[cfg(test)]
mod tests;
pub mod words;
