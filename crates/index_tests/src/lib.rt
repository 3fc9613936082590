// The same tests for every index: a crate of tests alone.
#![tactic(auto)]

#[cfg(test)]
mod tests;
