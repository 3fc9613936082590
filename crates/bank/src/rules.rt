// Whether cells and a count of any content are a bank that keeps its rules for a signature.
ghost use Rattle.std.specs.Prelude.{◌≤◌, length, Decides};
ghost use Rattle.signature.specs.Signatures.{sig_of};
ghost use Rattle.bank.specs.Rules.{Slot, Slots, Fitting, AllFitting, Earlier, AllApart};
ghost use Rattle.bank.specs.Checked.{Checked};

use crate::cell::Cell;
use lent_list::Count;
use refusal::Refusal;
use signature::signature::Signature;

pub fn keeps_rules(signature: &Signature, cells: &[Cell], count: &Count) -> Result<(), Refusal>
    ensures { Checked (sig_of signature.now) cells.now count.now.len result }
{
    if cells.is_empty() || cells.len() > 2048 {
        return Err(Refusal::Limits);
    }
    if count.len > cells.len() {
        return Err(Refusal::BankRules);
    }
    let counted = &cells[..count.len];
    if all_fitting(signature, counted) && all_apart(counted) {
        Ok(())
    } else {
        Err(Refusal::BankRules)
    }
}

fn all_fitting(signature: &Signature, cells: &[Cell]) -> bool
    ensures { Decides result (AllFitting (sig_of signature.now) cells.now) }
{
    cells
        .iter()
        .enumerate()
        .all(|(i, cell)| is_fitting(signature, i, *cell))
}

fn is_fitting(signature: &Signature, i: usize, cell: Cell) -> bool
    ensures { Decides result (Fitting (sig_of signature.now) i cell) }
{
    match cell {
        Cell::Var(x) => x < 32,
        Cell::App {
            symbol,
            arity,
            args,
        } => match signature.arity(symbol) {
            Some(expected) => arity == expected && slots_fit(i, usize::from(arity), args),
            None => false,
        },
    }
}

fn slots_fit(i: usize, arity: usize, args: [u16; 4]) -> bool
    ensures { Decides result (Slots i arity args) }
{
    args.iter()
        .enumerate()
        .all(|(k, arg)| slot_fits(i, arity, k, usize::from(*arg)))
}

fn slot_fits(i: usize, arity: usize, k: usize, value: usize) -> bool
    ensures { Decides result (Slot i arity k value) }
{
    if k < arity { value < i } else { value == 0 }
}

fn all_apart(cells: &[Cell]) -> bool
    ensures { Decides result (AllApart cells.now) }
{
    cells
        .iter()
        .enumerate()
        .all(|(j, cell)| is_first(cells, j, *cell))
}

// Whether the cell stands nowhere below place j.
fn is_first(cells: &[Cell], j: usize, cell: Cell) -> bool
    requires { j ≤ length cells.now }
    ensures { Decides result (Earlier cells.now j cell → ⊥) }
{
    !cells[..j].contains(&cell)
}
