// An index that promises more: it finds the patterns that generalize a term, and no others.
ghost use Rattle.std.specs.Prelude.{◌≤◌, length, take};
ghost use Rattle.terms.specs.Sig.{Sig};
ghost use Rattle.signature.specs.Signatures.{sig_of};
ghost use Rattle.index.specs.Questions.{Asked, Answered};
ghost use Rattle.index.specs.Found.{Generalizations};

use crate::index::Index;
use crate::question::check_question;
use bank::cell::Cell;
use lent_list::Count;
use refusal::Refusal;
use signature::signature::Signature;

pub trait ExactIndex: Index {
    // As `retrieve` is asked, and exact.
    fn retrieve_exact(&self, bank: &[Cell], cell: u16, list: &mut [u16], found: &mut Count)
        ensures within { found.new.len ≤ length list.new }
        ensures finds { (S : Sig) → Asked S bank.now cell Self.CAPACITY list.old → Generalizations (Self.Index.stored self.now) bank.now cell (take found.new.len list.new) };

    // As `candidates` is asked, and exact.
    fn generalizations(
        &self,
        signature: &Signature,
        cells: &[Cell],
        count: &Count,
        cell: u16,
        list: &mut [u16],
        found: &mut Count,
    ) -> Result<(), Refusal>
        ensures { Answered (sig_of signature.now) cells.now count.now.len cell Self.CAPACITY list.old found.old.len list.new found.new.len (Generalizations (Self.Index.stored self.now)) result }
    {
        check_question(signature, cells, count, cell, list.len(), Self::CAPACITY)?;
        self.retrieve_exact(&cells[..count.len], cell, list, found);
        Ok(())
    }
}
