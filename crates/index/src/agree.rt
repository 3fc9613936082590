// Whether two exact indexes give the same answer, whatever they are made of.
ghost use Rattle.std.specs.Prelude.{◌≡◌, ℕ, false, Ok, Decides, ◌≢◌};
ghost use Rattle.lists.specs.Members.{In, Alike};
ghost use Rattle.signature.specs.Signatures.{sig_of};
ghost use Rattle.index.specs.Maps.{Same};
ghost use Rattle.index.specs.Agreement.{Agreed};

use crate::exact::ExactIndex;
use crate::question::check_question;
use bank::cell::Cell;
use lent_list::Count;
use refusal::Refusal;
use signature::signature::Signature;

// Whether the same numbers generalize the cell's term in both: never false of indexes that store the same.
pub fn agree<I: ExactIndex, J: ExactIndex>(
    one: &I,
    other: &J,
    signature: &Signature,
    cells: &[Cell],
    count: &Count,
    cell: u16,
) -> Result<bool, Refusal>
    ensures agreed { Agreed (sig_of signature.now) cells.now count.now.len cell (I.Index.stored one.now) (J.Index.stored other.now) result }
    ensures alike { Same (I.Index.stored one.now) (J.Index.stored other.now) → result ≢ Ok false }
{
    check_question(signature, cells, count, cell, 128, 128)?;
    let bank = &cells[..count.len];
    let mut ones = [0; 128];
    let mut len = Count { len: 0 };
    one.retrieve_exact(bank, cell, &mut ones, &mut len);
    let mut others = [0; 128];
    let mut other_len = Count { len: 0 };
    other.retrieve_exact(bank, cell, &mut others, &mut other_len);
    Ok(are_alike(&ones[..len.len], &others[..other_len.len]))
}

// Whether the lists have the same members.
fn are_alike(xs: &[u16], ys: &[u16]) -> bool
    ensures { Decides result (Alike xs.now ys.now) }
{
    has_all(ys, xs) && has_all(xs, ys)
}

fn has_all(list: &[u16], items: &[u16]) -> bool
    ensures { Decides result ((n : ℕ) → In n items.now → In n list.now) }
{
    items.iter().all(|n| list.contains(n))
}
