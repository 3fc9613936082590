// Writes the term of a bank's cell as text into the caller's buffer.
#![tactic(auto)]

ghost use Rattle.std.specs.Prelude.{◌≡◌, ◌+◌, ◌<◌, ◌≤◌, ◌++◌, length, take, drop, IfSome, MatchOption};
ghost use Rattle.terms.specs.Term.{Term};
ghost use Rattle.signature.specs.Signatures.{sig_of, names_of};
ghost use Rattle.signature.specs.Written.{written};
ghost use Rattle.bank.specs.Rules.{Rules};
ghost use Rattle.bank.specs.Means.{Means};
ghost use Rattle.writer.specs.Outcome.{Outcome};

use bank::cell::Cell;
use bank::rules::keeps_rules;
use lent_list::Count;
use refusal::Refusal;
use row::Row;
use signature::signature::Signature;
use walk::{Frame, advance};

mod piece;
#[cfg(test)]
mod tests;
mod walk;

// A shared term can be exponentially long as text: whether it fits is found out by a walk that ends where the buffer would. One walk
// into an array of the longest buffer's size, and a copy, was tried: a problem took a fifth longer to print.
pub fn write_term(
    signature: &Signature,
    cells: &[Cell],
    count: &Count,
    cell: u16,
    buffer: &mut [u8],
) -> Result<usize, Refusal>
    ensures { Outcome signature.now cells.now count.now.len cell buffer.old buffer.new result }
{
    if buffer.len() > 65536 {
        return Err(Refusal::Limits);
    }
    keeps_rules(signature, cells, count)?;
    if usize::from(cell) >= count.len {
        return Err(Refusal::BankRules);
    }
    let counted = &cells[..count.len];
    // Zeros, which cost one pass over the memory; any other frame is filled in apart, and then copied.
    let mut stack = Row::new(Frame::Whole(0));
    fits(signature, counted, cell, buffer.len(), &mut stack).ok_or(Refusal::BufferTooShort)?;
    write(signature, counted, cell, buffer, &mut stack).ok_or(Refusal::BufferTooShort)
}

// Some if the cell's text has at most `limit` bytes.
fn fits(
    signature: &Signature,
    cells: &[Cell],
    cell: u16,
    limit: usize,
    stack: &mut Row<Frame, 2048>,
) -> Option<()>
    requires rules { Rules (sig_of signature.now) cells.now }
    requires counted { cell < length cells.now }
    requires deep { length cells.now ≤ 2048 }
    ensures { (t : Term) → Means cells.now cell t → MatchOption result (limit < length (written (names_of signature.now) t)) (λ _. length (written (names_of signature.now) t) ≤ limit) }
{
    stack.clear();
    stack.push(Frame::Whole(cell)).ok()?;
    let mut left = limit;
    while let Some(piece) = advance(signature, cells, stack) {
        left = left.checked_sub(piece.len())?;
    }
    Some(())
}

// How many bytes the cell's text has, which stand in front of the buffer, if they all fit.
fn write(
    signature: &Signature,
    cells: &[Cell],
    cell: u16,
    buffer: &mut [u8],
    stack: &mut Row<Frame, 2048>,
) -> Option<usize>
    requires rules { Rules (sig_of signature.now) cells.now }
    requires counted { cell < length cells.now }
    requires deep { length cells.now ≤ 2048 }
    requires short { length buffer.old ≤ 65536 }
    ensures size { length buffer.new ≡ length buffer.old }
    ensures within { IfSome result (λ r. (r ≤ length buffer.old) × (drop r buffer.new ≡ drop r buffer.old)) }
    ensures text { (t : Term) → Means cells.now cell t → MatchOption result (length buffer.old < length (written (names_of signature.now) t)) (λ r. take r buffer.new ≡ written (names_of signature.now) t) }
{
    stack.clear();
    stack.push(Frame::Whole(cell)).ok()?;
    let mut len = 0;
    while let Some(piece) = advance(signature, cells, stack) {
        len = put(buffer, len, piece.as_slice())?;
    }
    Some(len)
}

// Where the bytes end in the buffer, if they fit behind the first `at`.
fn put(buffer: &mut [u8], at: usize, bytes: &[u8]) -> Option<usize>
    requires { at ≤ length buffer.old }
    ensures size { length buffer.new ≡ length buffer.old }
    ensures does { MatchOption result (length buffer.old < at + length bytes.now) (λ end. (end ≡ at + length bytes.now) × (end ≤ length buffer.old) × (take end buffer.new ≡ take at buffer.old ++ bytes.now) × (drop end buffer.new ≡ drop end buffer.old)) }
{
    let end = at + bytes.len();
    if end > buffer.len() {
        return None;
    }
    buffer[at..end].copy_from_slice(bytes);
    Some(end)
}
