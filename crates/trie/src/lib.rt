// The nodes of a discrimination tree: rows of patterns, each ended by its number, where rows that begin alike share their first nodes.
#![tactic(auto)]

pub mod branch;
#[cfg(test)]
mod tests;
pub mod trie;
