// The term bank: terms stored once each, as cells that name the cells of their arguments.
#![tactic(auto)]

pub mod cell;
pub mod rules;
#[cfg(test)]
mod tests;
