// What the rules of a problem have to offer for a term: the numbers that a discrimination tree gives, and those that stay
// when each is tried.
#![tactic(auto)]

use discrimination_tree::DiscriminationTree;
use filter::Filter;
use plain_list::PlainList;
use row::Row;

pub mod ask;
pub mod gather;
pub mod goal;
mod methods;

// Patterns under the numbers from 1 on, in a filtered tree and in a plain list.
#[derive(Drop)]
pub struct Patterns {
    tree: Filter<DiscriminationTree>,
    list: PlainList,
    last: u16,
}

// At most as many numbers as the tree has room for.
#[derive(Clone, Copy)]
pub struct Offer {
    pub offered: Row<u16, 64>,
    pub kept: Row<u16, 64>,
    // Whether the plain list gives the numbers that are kept.
    pub agrees: bool,
}
