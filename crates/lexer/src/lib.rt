// From bytes to tokens: blanks and comments are passed over, and a byte that starts no token is a token that fits nowhere.
#![tactic(auto)]

pub mod first;
pub mod scanner;
pub mod token;
