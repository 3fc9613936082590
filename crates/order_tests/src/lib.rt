// Pairs of terms with the answers that the orders are known to give: a crate of tests alone.
#![tactic(auto)]

#[cfg(test)]
mod tests;
