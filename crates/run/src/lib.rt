// Runs: a goal's two sides rewritten until each ends.
#![tactic(auto)]

pub mod answer;
pub mod goal;
pub mod side;
