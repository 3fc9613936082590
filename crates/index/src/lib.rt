// Indexes over patterns: what an index promises, and what an exact one promises beyond it.
#![tactic(auto)]

pub mod agree;
pub mod exact;
pub mod index;
pub mod question;
