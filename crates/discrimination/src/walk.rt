// The walk over the tree, down every branch that fits and no other.
ghost use Rattle.std.specs.Prelude.{◌≡◌, ◌<◌, ◌≤◌, ◌∷◌, length};
ghost use Rattle.lent_list.specs.Words.{Appended};
ghost use Rattle.discrimination.specs.Cells.{cells_of};
ghost use Rattle.discrimination.specs.Frames.{frames, Ready, Turned, Noted};
ghost use Rattle.discrimination.specs.Retrieval.{Found};

use crate::agenda::{Agenda, Frame, lay};
use crate::pending::{Pending, after, one};
use bank::cell::Cell;
use lent_list::{Count, List};
use row::Row;
use trie::branch::Label;
use trie::trie::Trie;

// The numbers of the rows that the cell's term fits, as many as the list has room for.
pub fn walk(trie: &Trie, bank: &[Cell], cell: u16, list: &mut [u16], found: &mut Count)
    ensures { Found trie.now bank.now cell list.new found.new.len }
{
    let pending = one(cell);
    let mut agenda = Row::new(Frame { place: 0, pending });
    found.len = 0;
    lay(&mut agenda, trie.root(), pending);
    while let Some(frame) = agenda.pop() {
        turn(trie, bank, frame, &mut agenda, list, found);
    }
}

// A branch makes way for the one below it, if its label fits, and the one right of it.
fn turn(
    trie: &Trie,
    bank: &[Cell],
    frame: Frame,
    agenda: &mut Agenda,
    list: &mut [u16],
    found: &mut Count,
)
    requires ready { Ready trie.now.nodes 0 (frame ∷ frames agenda.old) }
    requires counted { found.old.len ≤ length list.old }
    ensures { Turned bank.now trie.now.nodes (frame ∷ frames agenda.old) list.old found.old.len (frames agenda.new) list.new found.new.len }
{
    let Some(branch) = trie.branch(frame.place) else {
        return;
    };
    lay(agenda, branch.right, frame.pending);
    note(list, found, branch.label, &frame.pending);
    if let Some(rest) = after(frame.pending, branch.label, bank) {
        lay(agenda, branch.down, rest);
    }
}

// The number of a row that ends here, if no cell is left.
fn note(list: &mut [u16], found: &mut Count, label: Label, pending: &Pending)
    requires { found.old.len ≤ length list.old }
    ensures { Noted label (cells_of pending.now) list.old found.old.len list.new found.new.len }
{
    if let Label::Number(number) = label {
        if pending.as_slice().is_empty() {
            let _ = append(list, found, number);
        }
    }
}

fn append(list: &mut [u16], found: &mut Count, number: u16) -> bool
    ensures { Appended list.old found.old.len list.new found.new.len number result }
{
    let mut numbers = List::over(list, found);
    numbers.append(number)
}
