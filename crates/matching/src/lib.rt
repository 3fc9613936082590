// A pattern against a cell of a bank: the instance that the cell stands for, or that there is none.
#![tactic(auto)]

ghost use Rattle.std.specs.Prelude.{◌<◌, length, Decides};
ghost use Rattle.terms.specs.Sig.{Sig};
ghost use Rattle.terms.specs.Patterns.{term_of};
ghost use Rattle.bank.specs.Rules.{Rules};
ghost use Rattle.bank.specs.Bindings.{Instance};
ghost use Rattle.matching.specs.Matched.{Matched};

use bank::cell::Cell;
use meet::meet;
use row::Row;
use terms::pattern::Pattern;

mod meet;
#[cfg(test)]
mod tests;

// The cell of each variable of the pattern. In a bank that keeps its rules equal terms are one cell, so that a variable
// that stands twice costs one comparison of cell numbers.
pub fn match_cell(pattern: &Pattern, bank: &[Cell], cell: u16) -> Option<[Option<u16>; 16]>
    ensures { Matched bank.now pattern.now cell result }
{
    let mut bindings = [None; 16];
    let mut pending = Row::front([cell; 32], 1);
    for node in pattern.nodes() {
        meet(*node, bank, &mut pending, &mut bindings)?;
    }
    Some(bindings)
}

pub fn is_instance(pattern: &Pattern, bank: &[Cell], cell: u16) -> bool
    ensures { (S : Sig) → Rules S bank.now → cell < length bank.now → Decides result (Instance bank.now (term_of pattern.now) cell) }
{
    match_cell(pattern, bank, cell).is_some()
}
