// The plain list: an index that goes over all its patterns. The fixed point that other indexes are compared with.
#![tactic(auto)]

ghost use Rattle.std.specs.Prelude.{◌≡◌, ℕ, ◌≤◌, length, take, None};
ghost use Rattle.lists.specs.Members.{Once};
ghost use Rattle.terms.specs.Sig.{Sig};
ghost use Rattle.index.specs.Questions.{Asked};
ghost use Rattle.index.specs.Found.{Generalizations};
ghost use Rattle.entries.specs.Lookup.{lookup, numbers};
ghost use Rattle.entries.specs.Stored.{map_of, numbers_of};
ghost use Rattle.entries.proofs.Stores;
ghost use Rattle.std.proofs.Common.{rules};

use bank::cell::Cell;
use entries::{Entries, Entry};
use index::exact::ExactIndex;
use index::index::Index;
use lent_list::{Count, List};
use matching::is_instance;
use refusal::Refusal;
use terms::pattern::Pattern;

#[derive(Clone, Copy)]
pub struct PlainList {
    entries: Entries<128>,
}

impl PlainList {
    pub fn new() -> PlainList
        ensures { (n : ℕ) → map_of result.entries n ≡ None }
    {
        PlainList {
            entries: Entries::new(),
        }
    }
}

impl Index for PlainList {
    const CAPACITY: usize = 128;

    ghost CAPACITY = { 128 };

    ghost stored = { λ s. map_of s.entries };

    ghost numbers = { λ s. numbers_of s.entries };

    ghost least = { Prim.search rules };

    ghost most = { Prim.search rules };

    ghost stores = { λ s. Stores.stores s.entries };

    ghost fits = { λ s. Stores.fits s.entries };

    fn clear(&mut self) {
        self.entries.clear();
    }

    fn insert(&mut self, number: u16, pattern: &Pattern) -> Result<(), Refusal> {
        self.entries.insert(number, pattern)
    }

    fn remove(&mut self, number: u16) -> Result<(), Refusal> {
        self.entries.remove(number)
    }

    fn get(&self, number: u16) -> Result<Pattern, Refusal> {
        self.entries.get(number)
    }

    fn retrieve(&self, bank: &[Cell], cell: u16, list: &mut [u16], found: &mut Count) {
        generalizing(self.entries.items(), bank, cell, list, found);
    }
}

impl ExactIndex for PlainList {
    fn retrieve_exact(&self, bank: &[Cell], cell: u16, list: &mut [u16], found: &mut Count) {
        generalizing(self.entries.items(), bank, cell, list, found);
    }
}

// Puts the numbers whose patterns generalize the cell's term into the list.
fn generalizing(entries: &[Entry], bank: &[Cell], cell: u16, list: &mut [u16], found: &mut Count)
    ensures within { found.new.len ≤ length list.new }
    ensures finds { (S : Sig) → Asked S bank.now cell (length entries.now) list.old → Once (numbers entries.now) → Generalizations (lookup entries.now) bank.now cell (take found.new.len list.new) }
{
    found.len = 0;
    let room = list.len();
    let mut numbers = List::over(list, found);
    for entry in entries {
        if numbers.len() < room && is_instance(&entry.pattern, bank, cell) {
            let _ = numbers.append(entry.number);
        }
    }
}
