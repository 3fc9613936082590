// The call script: one call to a line.
#![tactic(auto)]

pub mod answer;
pub mod call;
pub mod line;
#[cfg(test)]
mod tests;
pub mod text;
mod words;
