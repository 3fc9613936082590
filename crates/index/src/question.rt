// Whether an index may be asked about a cell.
ghost use Rattle.signature.specs.Signatures.{sig_of};
ghost use Rattle.index.specs.Questions.{MayAsk};

use bank::cell::Cell;
use bank::rules::keeps_rules;
use lent_list::Count;
use refusal::Refusal;
use signature::signature::Signature;

// `room` is the length of the candidate list.
pub fn check_question(
    signature: &Signature,
    cells: &[Cell],
    count: &Count,
    cell: u16,
    room: usize,
    capacity: usize,
) -> Result<(), Refusal>
    ensures { MayAsk (sig_of signature.now) cells.now count.now.len cell capacity room result }
{
    if room < capacity {
        return Err(Refusal::Limits);
    }
    keeps_rules(signature, cells, count)?;
    if cell as usize >= count.len {
        return Err(Refusal::BankRules);
    }
    Ok(())
}
