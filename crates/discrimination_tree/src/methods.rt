ghost use Rattle.std.specs.Prelude.{◌≡◌, ℕ, ◌≤◌, length, take, None};
ghost use Rattle.terms.specs.Sig.{Sig};
ghost use Rattle.index.specs.Questions.{Asked};
ghost use Rattle.entries.specs.Stored.{map_of, numbers_of};
ghost use Rattle.discrimination_tree.specs.Loose.{LooseGeneralizations};
ghost use Rattle.entries.proofs.Stores;
ghost use Rattle.std.proofs.Common.{rules};

use super::DiscriminationTree;
use bank::cell::Cell;
use discrimination::walk::walk;
use entries::Entries;
use index::index::Index;
use lent_list::Count;
use refusal::Refusal;
use terms::pattern::Pattern;
use trie::trie::Trie;

impl DiscriminationTree {
    pub fn new() -> DiscriminationTree
        ensures { (n : ℕ) → map_of result.entries n ≡ None }
    {
        DiscriminationTree {
            entries: Entries::new(),
            trie: Trie::new(),
        }
    }

    // The numbers of the patterns that generalize the cell's term, were each variable occurrence a variable of its own.
    pub fn retrieve_loose(&self, bank: &[Cell], cell: u16, list: &mut [u16], found: &mut Count)
        ensures within { found.new.len ≤ length list.new }
        ensures finds { (S : Sig) → Asked S bank.now cell 64 list.old → LooseGeneralizations (map_of self.now.entries) bank.now cell (take found.new.len list.new) }
    {
        walk(&self.trie, bank, cell, list, found);
    }
}

impl Index for DiscriminationTree {
    const CAPACITY: usize = 64;

    ghost CAPACITY = { 64 };

    ghost stored = { λ s. map_of s.entries };

    ghost numbers = { λ s. numbers_of s.entries };

    ghost least = { Prim.search rules };

    ghost most = { Prim.search rules };

    ghost stores = { λ s. Stores.stores s.entries };

    ghost fits = { λ s. Stores.fits s.entries };

    fn clear(&mut self) {
        self.entries.clear();
        self.trie.clear();
    }

    fn insert(&mut self, number: u16, pattern: &Pattern) -> Result<(), Refusal> {
        self.entries.insert(number, pattern)?;
        let _ = self.trie.insert(pattern, number);
        Ok(())
    }

    fn remove(&mut self, number: u16) -> Result<(), Refusal> {
        let pattern = self.entries.get(number)?;
        self.entries.remove(number)?;
        let _ = self.trie.remove(&pattern, number);
        Ok(())
    }

    fn get(&self, number: u16) -> Result<Pattern, Refusal> {
        self.entries.get(number)
    }

    fn retrieve(&self, bank: &[Cell], cell: u16, list: &mut [u16], found: &mut Count) {
        self.retrieve_loose(bank, cell, list, found);
    }
}
