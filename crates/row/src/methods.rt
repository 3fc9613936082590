ghost use Rattle.std.specs.Prelude.{◌≡◌, ◌+◌, ◌<◌, ◌≤◌, Bool, [], ◌∷◌, ◌++◌, length, take, reverse, IfSome, IfNone, MatchOption, MatchResult, slice_index_or};
ghost use Rattle.std.specs.List.{swap_remove};
ghost use Rattle.row.specs.Items.{items};

use super::{Full, Row};

impl<T: Copy, const N: usize> Row<T, N> {
    // No items yet; `filler` lies in the cells that are not in use.
    pub fn new(filler: T) -> Row<T, N>
        ensures { items result ≡ [] }
    {
        Row {
            cells: [filler; N],
            len: 0,
        }
    }

    // The items of the slice, if they are not too many. Inlined, since a filler that is known there is written faster.
    #[inline(always)]
    pub fn from_slice(slice: &[T], filler: T) -> Option<Row<T, N>>
        ensures { MatchOption result (N < length slice.now) (λ r. items r ≡ slice.now) }
    {
        let len = slice.len();
        if len > N {
            return None;
        }
        let mut cells = [filler; N];
        cells[..len].copy_from_slice(slice);
        Some(Row { cells, len })
    }

    // The first `len` of the cells, or all where there are fewer.
    pub fn front(cells: [T; N], len: usize) -> Row<T, N>
        ensures { items result ≡ take len cells }
    {
        Row {
            cells,
            len: len.min(N),
        }
    }

    pub fn as_slice(&self) -> &[T]
        ensures is { result.now ≡ items self.now }
        ensures within { length result.now ≤ N }
    {
        let all = &self.cells[..];
        &all[..self.len]
    }

    pub fn len(&self) -> usize
        ensures is { result ≡ length (items self.now) }
        ensures within { result ≤ N }
    {
        self.as_slice().len()
    }

    // One item more at the end.
    pub fn push(&mut self, item: T) -> Result<(), Full>
        ensures { MatchResult result (λ _. (length (items self.old) < N) × (items self.new ≡ items self.old ++ item ∷ [])) (λ _. (N ≤ length (items self.old)) × (self.new ≡ self.old)) }
    {
        if self.len >= N {
            return Err(Full);
        }
        self.cells[self.len] = item;
        self.len += 1;
        Ok(())
    }

    // The items of the slice at the end, the last of them first, so that the first one can be taken first.
    pub fn push_reversed(&mut self, more: &[T]) -> Result<(), Full>
        ensures { MatchResult result (λ _. (length (items self.old) + length more.now ≤ N) × (items self.new ≡ items self.old ++ reverse more.now)) (λ _. (N < length (items self.old) + length more.now) × (self.new ≡ self.old)) }
    {
        if more.len() > N - self.len {
            return Err(Full);
        }
        let mut left = more;
        while let [front @ .., last] = left {
            self.cells[self.len] = *last;
            self.len += 1;
            left = front;
        }
        Ok(())
    }

    // Takes the last item.
    pub fn pop(&mut self) -> Option<T>
        ensures { MatchOption result ((items self.old ≡ []) × (self.new ≡ self.old)) (λ x. items self.old ≡ items self.new ++ x ∷ []) }
    {
        if self.len == 0 {
            return None;
        }
        self.len -= 1;
        Some(self.cells[self.len])
    }

    #[tactic(auto, using(crate::proofs::Swapping::swapped))]
    // Takes the item at a place; the last item comes to stand there.
    pub fn swap_remove(&mut self, at: usize) -> Option<T>
        ensures item { MatchOption result (length (items self.old) ≤ at) (λ x. (at < length (items self.old)) × (x ≡ slice_index_or (items self.old) at x)) }
        ensures none { IfNone result (self.new ≡ self.old) }
        ensures some { IfSome result (λ x. items self.new ≡ swap_remove (items self.old) at x) }
    {
        if at >= self.len {
            return None;
        }
        self.len -= 1;
        let item = self.cells[at];
        self.cells[at] = self.cells[self.len];
        Some(item)
    }

    // Keeps the first items, as many as asked for.
    pub fn truncate(&mut self, len: usize)
        ensures { items self.new ≡ take len (items self.old) }
    {
        self.len = self.len.min(len);
    }

    pub fn clear(&mut self)
        ensures { items self.new ≡ [] }
    {
        self.len = 0;
    }
}
