// Texts with the outcomes that reading them is known to have: a crate of tests alone.
#![tactic(auto)]

#[cfg(test)]
mod breaches;
#[cfg(test)]
mod readers;
#[cfg(test)]
mod readings;
#[cfg(test)]
mod sizes;
#[cfg(test)]
mod symbols;
#[cfg(test)]
mod texts;
