// A pattern's subterms, each named by the place where its nodes begin, and where they end.
#![tactic(auto)]

ghost use Rattle.std.specs.Prelude.{◌≡◌, ℕ, ◌+◌, ◌<◌, length, slice_index};
ghost use Rattle.terms.specs.Term.{cells};
ghost use Rattle.terms.specs.Patterns.{nodes_of};
ghost use Rattle.subterms.specs.Places.{at};

use terms::pattern::Pattern;

mod methods;
mod next;
pub mod variables;

// The subterm at place p ends before place ends[p]. The ends stand beside the nodes, which are handed out as slices of the pattern's own row.
#[derive(Clone, Copy)]
pub struct Subterms {
    pattern: Pattern,
    ends: [usize; 32],
    ghost ended: { (k : ℕ) → k < length (nodes_of pattern) → slice_index ends k ≡ k + cells (at (nodes_of pattern) k) },
}

// The places where the arguments of a subterm begin, from the first to the last: each begins where the one before it ends.
#[derive(Clone, Copy, Drop)]
pub struct Arguments<'a> {
    ends: &'a [usize],
    next: usize,
    left: usize,
}
