// Calls of a session with the answers that they are known to have: a crate of tests alone.
#![tactic(auto)]

#[cfg(test)]
mod adding;
#[cfg(test)]
mod full;
#[cfg(test)]
mod removing;
#[cfg(test)]
mod sessions;
