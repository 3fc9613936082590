// The cells that are still to be matched.
ghost use Rattle.std.specs.Prelude.{◌≡◌, [], ◌∷◌, length};
ghost use Rattle.discrimination.specs.Cells.{cells_of, Room, Rest};

use bank::cell::Cell;
use row::Row;
use trie::branch::Label;

// The next cell last. A row of at most 32 nodes never wants more than 32 cells at once.
pub type Pending = Row<u16, 32>;

pub fn one(cell: u16) -> Pending
    ensures { cells_of result ≡ cell ∷ [] }
{
    let mut pending = Row::new(0);
    let _ = pending.push(cell);
    pending
}

// What is left after a label that the cells fit: a star takes the next cell whole, a symbol puts the cell's arguments in its place.
pub fn after(pending: Pending, label: Label, bank: &[Cell]) -> Option<Pending>
    requires { Room label (length (cells_of pending)) }
    ensures { Rest bank.now label pending result }
{
    let mut rest = pending;
    let next = rest.pop()?;
    match label {
        Label::Star => Some(rest),
        Label::Symbol { symbol, arity } => {
            let args = bank.get(next as usize)?.arguments(symbol, arity)?;
            rest.push_reversed(&args[..arity as usize]).ok()?;
            Some(rest)
        }
        Label::Number(_) => None,
    }
}
