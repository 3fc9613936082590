// What every index promises: it means a map from numbers to patterns.
ghost use Rattle.std.specs.Prelude.{◌≡◌, ℕ, ◌≤◌, List, length, take, None, Option};
ghost use Rattle.terms.specs.Sig.{Sig};
ghost use Rattle.terms.specs.declared.pattern.Pattern.{Pattern};
ghost use Rattle.signature.specs.Signatures.{sig_of};
ghost use Rattle.index.specs.Maps.{Stores, Inserted, Removed, Told};
ghost use Rattle.index.specs.Questions.{Asked, Answered};
ghost use Rattle.index.specs.Found.{Candidates};

use crate::question::check_question;
use bank::cell::Cell;
use lent_list::Count;
use refusal::Refusal;
use signature::signature::Signature;
use terms::pattern::Pattern;

pub trait Index {
    // How many patterns there is room for, always: from 1 to 128.
    const CAPACITY: usize;

    ghost CAPACITY: { ℕ };

    // The pattern under a number.
    ghost stored: { Self → ℕ → Option Pattern };

    // The numbers that are stored, in an order of the maker's.
    ghost numbers: { Self → List ℕ };

    fn clear(&mut self)
        ensures { (n : ℕ) → stored self.new n ≡ None };

    fn insert(&mut self, number: u16, pattern: &Pattern) -> Result<(), Refusal>
        ensures { Inserted (stored self.old) (length (numbers self.old)) CAPACITY number pattern.now (stored self.new) result };

    fn remove(&mut self, number: u16) -> Result<(), Refusal>
        ensures { Removed (stored self.old) number (stored self.new) result };

    fn get(&self, number: u16) -> Result<Pattern, Refusal>
        ensures { Told (stored self.now) number result };

    // The question as a run asks it, of counted cells that it knows to keep the rules of a bank.
    fn retrieve(&self, bank: &[Cell], cell: u16, list: &mut [u16], found: &mut Count)
        ensures within { found.new.len ≤ length list.new }
        ensures finds { (S : Sig) → Asked S bank.now cell CAPACITY list.old → Candidates (stored self.now) bank.now cell (take found.new.len list.new) };

    // The same question of a bank of any content.
    fn candidates(
        &self,
        signature: &Signature,
        cells: &[Cell],
        count: &Count,
        cell: u16,
        list: &mut [u16],
        found: &mut Count,
    ) -> Result<(), Refusal>
        ensures { Answered (sig_of signature.now) cells.now count.now.len cell CAPACITY list.old found.old.len list.new found.new.len (Candidates (stored self.now)) result }
    {
        check_question(signature, cells, count, cell, list.len(), Self::CAPACITY)?;
        self.retrieve(&cells[..count.len], cell, list, found);
        Ok(())
    }

    ghost least: { 1 ≤ CAPACITY };

    ghost most: { CAPACITY ≤ 128 };

    ghost stores: { (s : Self) → Stores (stored s) (numbers s) };

    ghost fits: { (s : Self) → length (numbers s) ≤ CAPACITY };
}
