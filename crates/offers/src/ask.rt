// What the tree offers for a cell's term.
ghost use Rattle.std.specs.Prelude.{replicate};
ghost use Rattle.terms.specs.Sig.{Sig};
ghost use Rattle.signature.specs.Signatures.{sig_of};
ghost use Rattle.index.specs.Questions.{Asked};
ghost use Rattle.index.specs.Found.{Generalizations};
ghost use Rattle.discrimination_tree.specs.Loose.{LooseGeneralizations};
ghost use Rattle.offers.specs.Numbered.{in_tree};
ghost use Rattle.offers.specs.Offers.{Answered};
ghost use Rattle.row.specs.Items.{items};

use crate::{Offer, Patterns};
use bank::cell::Cell;
use index::agree::agree;
use index::exact::ExactIndex;
use index::question::check_question;
use lent_list::Count;
use refusal::Refusal;
use row::Row;
use signature::signature::Signature;

// The question is put to the tree, to the filter over it and to the plain list.
pub fn ask(
    patterns: &Patterns,
    signature: &Signature,
    cells: &[Cell],
    count: &Count,
    cell: u16,
) -> Result<Offer, Refusal>
    ensures { Answered (sig_of signature.now) cells.now count.now.len cell patterns.now result }
{
    check_question(signature, cells, count, cell, 64, 64)?;
    let bank = &cells[..count.len];
    let offered = loose(patterns, bank, cell);
    let kept = exact(patterns, bank, cell);
    let agrees = agree(
        &patterns.list,
        &patterns.tree,
        signature,
        cells,
        count,
        cell,
    )?;
    Ok(Offer {
        offered,
        kept,
        agrees,
    })
}

// Like `exact` but for the call: a closure in its place would have to say again what the call promises.
fn loose(patterns: &Patterns, bank: &[Cell], cell: u16) -> Row<u16, 64>
    ensures { (S : Sig) → Asked S bank.now cell 64 (replicate 64 0) → LooseGeneralizations (in_tree patterns.now) bank.now cell (items result) }
{
    let mut list = [0; 64];
    let mut found = Count { len: 0 };
    patterns
        .tree
        .inner()
        .retrieve_loose(bank, cell, &mut list, &mut found);
    Row::front(list, found.len)
}

fn exact(patterns: &Patterns, bank: &[Cell], cell: u16) -> Row<u16, 64>
    ensures { (S : Sig) → Asked S bank.now cell 64 (replicate 64 0) → Generalizations (in_tree patterns.now) bank.now cell (items result) }
{
    let mut list = [0; 64];
    let mut kept = Count { len: 0 };
    patterns
        .tree
        .retrieve_exact(bank, cell, &mut list, &mut kept);
    Row::front(list, kept.len)
}
