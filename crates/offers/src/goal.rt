// The subterms of a goal.
ghost use Rattle.std.specs.Prelude.{take, OnOk};
ghost use Rattle.signature.specs.Signatures.{sig_of};
ghost use Rattle.offers.specs.Goals.{Both};

use bank::cell::Cell;
use enter::enter;
use formula::equation::Equation;
use lent_list::Count;
use refusal::Refusal;
use signature::signature::Signature;

// Enters both sides into a bank: into an empty one, so that its cells are the subterms.
pub fn enter_sides(
    signature: &Signature,
    formula: &Equation,
    cells: &mut [Cell],
    count: &mut Count,
) -> Result<(), Refusal>
    ensures { OnOk result (Both (sig_of signature.now) formula.now (take count.old.len cells.old) (take count.new.len cells.new)) }
{
    enter(signature, &formula.left, cells, count)?;
    enter(signature, &formula.right, cells, count)?;
    Ok(())
}
