// A list over memory of the caller's: the cells are a lent slice, the count a record lent beside it.
#![tactic(auto)]

ghost use Rattle.std.specs.Prelude.{◌≡◌, ◌+◌, ◌<◌, ◌≤◌, Bool, true, false, [], ◌∷◌, ◌++◌, length, take, Decides, MatchOption, slice_index_or};
ghost use Rattle.lent_list.specs.Words.{Appended, First};
ghost use Rattle.std.proofs.Common.{rules};

// How many of the cells are in use.
#[derive(Clone, Copy)]
pub struct Count {
    pub len: usize,
}

// An item whose `==` says exactly whether two items are equal.
pub trait Exact: Copy + PartialEq {
    fn same(&self, other: &Self) -> bool
        ensures { Decides result (self.now ≡ other.now) }
    {
        self == other
    }

    ghost exact: { (x y : Self) (b : Bool) → (b ≡ Self.PartialEq.eq x y) → Decides b (x ≡ y) };
}

impl Exact for u16 {
    ghost exact = { Prim.search rules };
}

#[derive(Drop)]
pub struct List<'a, T> {
    cells: &'a mut [T],
    count: &'a mut Count,
}

impl<'a, T: Copy> List<'a, T> {
    // The list of the first `count` cells. A count beyond the cells is no error here: the calls below refuse what is not there.
    pub fn over(cells: &'a mut [T], count: &'a mut Count) -> List<'a, T>
        ensures cells_now { result.cells.now ≡ cells.old }
        ensures count_now { result.count.now ≡ count.old }
        ensures cells_name { result.cells.ghost_name ≡ cells.entry.ghost_name }
        ensures count_name { result.count.ghost_name ≡ count.entry.ghost_name }
    {
        List { cells, count }
    }

    pub fn len(&self) -> usize
        ensures { result ≡ self.now.count.now.len }
    {
        let Count { len } = *self.count;
        len
    }

    // The counted cells, as far as there are any.
    fn items(&self) -> &[T]
        ensures { result.now ≡ take self.now.count.now.len self.now.cells.now }
    {
        let cells = &*self.cells;
        &cells[..self.count.len.min(cells.len())]
    }

    pub fn get(&self, at: usize) -> Option<T>
        ensures { MatchOption result ((at < self.now.count.now.len) × (at < length self.now.cells.now) → ⊥) (λ x. (at < self.now.count.now.len) × (at < length self.now.cells.now) × (x ≡ slice_index_or self.now.cells.now at x)) }
    {
        self.items().get(at).copied()
    }

    // Adds an item, if a cell is free.
    pub fn append(&mut self, item: T) -> bool
        ensures cells_name { self.new.cells.ghost_name ≡ self.old.cells.ghost_name }
        ensures count_name { self.new.count.ghost_name ≡ self.old.count.ghost_name }
        ensures does { Appended self.old.cells.now self.old.count.now.len self.new.cells.now self.new.count.now.len item result }
        ensures list { result ≡ true → take self.new.count.now.len self.new.cells.now ≡ take self.old.count.now.len self.old.cells.now ++ item ∷ [] }
    {
        let at = self.count.len;
        if at >= self.cells.len() {
            return false;
        }
        self.cells[at] = item;
        self.count.len = at + 1;
        true
    }

    // Forgets the items from `to` on, if there are that many to keep.
    pub fn shorten(&mut self, to: usize) -> bool
        ensures cells_name { self.new.cells.ghost_name ≡ self.old.cells.ghost_name }
        ensures count_name { self.new.count.ghost_name ≡ self.old.count.ghost_name }
        ensures cells_same { self.new.cells.now ≡ self.old.cells.now }
        ensures can { Decides result (to ≤ self.old.count.now.len) }
        ensures did { result ≡ true → self.new.count.now.len ≡ to }
        ensures refused { result ≡ false → self.new.count.now.len ≡ self.old.count.now.len }
    {
        if to > self.count.len {
            return false;
        }
        self.count.len = to;
        true
    }
}

impl<'a, T: Exact> List<'a, T> {
    pub fn find_first(&self, item: T) -> Option<usize>
        ensures { First self.now.cells.now self.now.count.now.len item result }
    {
        self.items().iter().position(|x| x.same(&item))
    }
}

#[cfg(test)]
mod tests {
    use super::{Count, List};
    use crate::Exact;

    #[test]
    fn appends_until_full(rt: HostRuntime) {
        let mut cells: [u16; 2] = [0; 2];
        let mut count = Count { len: 0 };
        let mut list = List::over(&mut cells, &mut count);
        assert!(rt; list.append(7));
        assert!(rt; list.append(8));
        assert!(rt; !list.append(9));
        assert_eq!(rt; list.find_first(8), Some(1));
        assert!(rt; list.shorten(1));
        assert!(rt; list.get(1).is_none());
    }
}
