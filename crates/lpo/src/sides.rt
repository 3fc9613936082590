// Two terms, and what is seen of each pair of their subterms.
ghost use Rattle.std.specs.Prelude.{◌≡◌, ℕ, ◌<◌, [], length, slice_index_or};

use subterms::Subterms;

mod fill;
mod pairs;

pub use fill::is_above;

// The terms are lent, so that what is written of their pairs lies apart from what is read of them.
#[derive(Clone, Copy, Drop)]
pub struct Sides<'a> {
    pub upper: &'a Subterms,
    pub lower: &'a Subterms,
    pub seen: Table,
}

// A row for each place of the upper term, with what is seen of it and each place of the lower one.
#[derive(Clone, Copy)]
pub struct Table {
    pub rows: [[Compared; 32]; 32],
    ghost room: { length rows ≡ 32 },
    ghost wide: { (i : ℕ) → i < 32 → length (slice_index_or rows i []) ≡ 32 },
}

#[derive(Clone, Copy, PartialEq, Eq, Debug)]
pub enum Compared {
    Above,
    Equal,
    Neither,
}
