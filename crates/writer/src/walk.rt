// A walk over the occurrences of a cell's term, with a row of frames in place of recursion.
ghost use Rattle.std.specs.Prelude.{ℕ, ◌+◌, ◌<◌, ◌≤◌, List, ◌∷◌, length};
ghost use Rattle.bank.specs.Rules.{Rules};
ghost use Rattle.row.specs.Items.{items};
ghost use Rattle.signature.specs.Signatures.{sig_of, names_of};
ghost use Rattle.writer.specs.declared.walk.Frame.TheVariants.{Whole, Rest};
ghost use Rattle.writer.specs.Walks.{Left, Turned, frames};

use crate::piece::{Piece, mark, name, variable};
use bank::cell::Cell;
use row::Row;
use signature::signature::Signature;

// A cell whose term is still to be written.
#[derive(Clone, Copy, PartialEq, Eq, Debug)]
pub enum Frame {
    Whole(u16),
    // Its symbol and so many arguments are written.
    Rest { cell: u16, done: u8 },
}

// The next piece of the text, until all is written.
pub fn advance(signature: &Signature, cells: &[Cell], stack: &mut Row<Frame, 2048>) -> Option<Piece>
    requires rules { Rules (sig_of signature.now) cells.now }
    requires deep { length cells.now ≤ 2048 }
    requires left { (text : List ℕ) × Left (names_of signature.now) cells.now (frames stack.old) text }
    ensures { (text : List ℕ) → Left (names_of signature.now) cells.now (frames stack.old) text → Turned (names_of signature.now) cells.now (frames stack.new) result text }
{
    match stack.pop()? {
        Frame::Whole(cell) => begin(signature, cells, stack, cell),
        Frame::Rest { cell, done } => go_on(signature, cells, stack, cell, done),
    }
}

// A variable, or a symbol, whose arguments are left.
fn begin(
    signature: &Signature,
    cells: &[Cell],
    stack: &mut Row<Frame, 2048>,
    cell: u16,
) -> Option<Piece>
    requires rules { Rules (sig_of signature.now) cells.now }
    requires deep { length cells.now ≤ 2048 }
    requires room { cell + length (items stack.old) < length cells.now }
    ensures { (text : List ℕ) → Left (names_of signature.now) cells.now (Whole cell ∷ frames stack.old) text → Turned (names_of signature.now) cells.now (frames stack.new) result text }
{
    match cells[usize::from(cell)] {
        Cell::Var(x) => variable(x),
        Cell::App { symbol, arity, .. } => {
            if arity == 0 {
                return name(signature, symbol);
            }
            stack.push(Frame::Rest { cell, done: 0 }).ok()?;
            name(signature, symbol)
        }
    }
}

// The mark before the next argument, which is left, or behind the last one.
fn go_on(
    signature: &Signature,
    cells: &[Cell],
    stack: &mut Row<Frame, 2048>,
    cell: u16,
    done: u8,
) -> Option<Piece>
    requires rules { Rules (sig_of signature.now) cells.now }
    requires deep { length cells.now ≤ 2048 }
    requires room { cell + length (items stack.old) < length cells.now }
    ensures { (text : List ℕ) → Left (names_of signature.now) cells.now (Rest cell done ∷ frames stack.old) text → Turned (names_of signature.now) cells.now (frames stack.new) result text }
{
    let Cell::App { arity, args, .. } = cells[usize::from(cell)] else {
        return None;
    };
    if done >= arity {
        return mark(b')');
    }
    let rest = Frame::Rest {
        cell,
        done: done + 1,
    };
    stack.push(rest).ok()?;
    stack.push(Frame::Whole(args[usize::from(done)])).ok()?;
    mark(if done == 0 { b'(' } else { b',' })
}
