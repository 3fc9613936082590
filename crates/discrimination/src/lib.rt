// Retrieval from a discrimination tree: the numbers of the patterns of which a cell's term may be an instance.
#![tactic(auto)]

mod agenda;
mod pending;
#[cfg(test)]
mod tests;
pub mod walk;
