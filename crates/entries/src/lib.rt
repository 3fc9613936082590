// Numbers with their patterns, at most N of them, in a fixed array.
#![tactic(auto)]

ghost use Rattle.std.specs.Prelude.{◌≡◌, true};
ghost use Rattle.row.specs.Items.{items};
ghost use Rattle.entries.specs.Lookup.{numbers, distinct};

use row::Row;
use terms::pattern::Pattern;

mod methods;

#[derive(Clone, Copy)]
pub struct Entry {
    pub number: u16,
    pub pattern: Pattern,
}

// The entries are in no order.
#[derive(Clone, Copy)]
pub struct Entries<const N: usize> {
    entries: Row<Entry, N>,
    ghost apart: { distinct (numbers (items entries)) ≡ true },
}
