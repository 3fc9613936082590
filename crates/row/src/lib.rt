// A list of at most N items in a fixed array: for what has a bound and takes no memory from elsewhere.
#![tactic(auto)]

ghost use Rattle.std.specs.Prelude.{◌≡◌, ◌≤◌, length, ⊤};

use std::alloc::AllocError;

mod methods;
#[cfg(test)]
mod tests;

// The first `len` cells are the items; the others hold what happens to be there.
#[derive(Drop)]
pub struct Row<T, const N: usize> {
    cells: [T; N],
    len: usize,
    ghost room: { length cells ≡ N },
    ghost within: { len ≤ N },
}

impl<T: Copy, const N: usize> Copy for Row<T, N> {}

impl<T: Copy, const N: usize> Clone for Row<T, N> {
    ghost is_clone = { λ x y. y ≡ x };

    ghost is_infallible = { λ _. ⊤ };

    fn clone(&self) -> Result<Row<T, N>, AllocError> {
        Ok(*self)
    }
}

// There is no room for one item more.
#[derive(Clone, Copy, PartialEq, Eq, Debug)]
pub struct Full;
