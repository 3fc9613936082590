// Terms as mathematics has them (in specs/), and patterns: the small terms that equations are made of.
#![tactic(auto)]

pub mod pattern;
pub mod side;
