// The two sides of a formula: written back from a bank, and compared.
#![tactic(auto)]

ghost use Rattle.std.specs.Prelude.{◌≡◌, true, false, take, IfOk, MatchOption};
ghost use Rattle.terms.specs.Patterns.{term_of};
ghost use Rattle.sides.specs.declared.Fault.TheVariants.{Refused, NoMemory};
ghost use Rattle.sides.specs.Rules.{rule, Compared, Held, Texts, Told};

use bank::cell::Cell;
use enter::enter;
use formula::equation::Equation;
use kbo::KnuthBendix;
use lent_list::Count;
use lpo::LexicographicPath;
use order::ReductionOrder;
use order::orient::orient;
use refusal::Refusal;
use signature::signature::Signature;
use std::alloc::{AllocError, Global};
use terms::pattern::Pattern;
use terms::side::Side;
use writer::write_term;

#[cfg(test)]
mod tests;

// As large as a bank may be.
const BANK: usize = 2048;

// A pattern has at most 32 cells, each at most a name of 16 bytes with a parenthesis and a comma.
const LONGEST: usize = 1024;

// Why there are no sides to show.
#[derive(Clone, Copy)]
pub enum Fault {
    Refused(Refusal),
    NoMemory,
}

impl From<Refusal> for Fault {
    ghost from_gives = { λ e r. r ≡ Refused e };

    fn from(refusal: Refusal) -> Fault {
        Fault::Refused(refusal)
    }
}

impl From<AllocError> for Fault {
    ghost from_gives = { λ _ r. r ≡ NoMemory };

    fn from(_error: AllocError) -> Fault {
        Fault::NoMemory
    }
}

// Both sides as text, and how many cells of a bank they share.
#[derive(Drop)]
pub struct Sides {
    pub left: Vec<u8>,
    pub right: Vec<u8>,
    pub cells: usize,
}

// Both sides, entered into a bank and written from there: the text of each is that of its term.
pub fn write_sides(heap: Global, signature: &Signature, equation: &Equation) -> Result<Sides, Fault>
    ensures { IfOk result (λ s. Texts signature.now equation.now s) }
{
    let mut cells = vec![in heap; Cell::Var(0); BANK]?;
    let bank = cells.as_mut_slice();
    let mut count = Count { len: 0 };
    let left = write_side(heap, signature, &equation.left, bank, &mut count)?;
    let right = write_side(heap, signature, &equation.right, bank, &mut count)?;
    Ok(Sides {
        left,
        right,
        cells: count.len,
    })
}

// Enters the term into the bank, and writes it from there.
fn write_side(
    heap: Global,
    signature: &Signature,
    side: &Pattern,
    cells: &mut [Cell],
    count: &mut Count,
) -> Result<Vec<u8>, Fault>
    ensures { IfOk result (λ v. Held signature.now (term_of side.now) (take count.old.len cells.old) (take count.new.len cells.new) count.new.len v.items) }
{
    let cell = enter(signature, side, cells, count)?;
    text_of(heap, signature, cells, count, cell)
}

// The text of a counted cell's term, if that is no longer than a pattern's.
pub fn text_of(
    heap: Global,
    signature: &Signature,
    cells: &[Cell],
    count: &Count,
    cell: u16,
) -> Result<Vec<u8>, Fault>
    ensures { IfOk result (λ v. Told signature.now cells.now count.now.len cell v.items) }
{
    let mut text = vec![in heap; 0; LONGEST]?;
    let len = write_term(signature, cells, count, cell, text.as_mut_slice())?;
    text.truncate(len);
    Ok(text)
}

// The higher side under each order.
#[derive(Clone, Copy)]
pub struct Higher {
    pub knuth_bendix: Option<Side>,
    pub path: Option<Side>,
}

// Which side is higher, of an equation that may become a rewrite rule.
pub fn higher_sides(signature: &Signature, equation: &Equation) -> Option<Higher>
    ensures { MatchOption result (rule equation.now.role equation.now.sign ≡ false) (λ h. (rule equation.now.role equation.now.sign ≡ true) × Compared signature.now equation.now h) }
{
    if !equation.is_rule() {
        return None;
    }
    Some(Higher {
        knuth_bendix: orient(&KnuthBendix, signature, &equation.left, &equation.right),
        path: orient(
            &LexicographicPath,
            signature,
            &equation.left,
            &equation.right,
        ),
    })
}
