// Which cells of a bank stand for subterms of a term.
#![tactic(auto)]

ghost use Rattle.std.specs.Prelude.{◌≡◌, ℕ, false, length, slice_index_or};
ghost use Rattle.reach.specs.Marks.{Marked, Added, Joined};

use bank::cell::Cell;

// Marks the root's subterms, the root among them, and no other cell. Arguments have lower numbers than their term, so one pass down
// from the root is enough.
pub fn mark_reached(bank: &[Cell], root: u16, marks: &mut [bool])
    ensures { Marked bank.now root marks.new }
{
    clear(marks);
    let root = root as usize;
    if root >= bank.len() || root >= marks.len() {
        return;
    }
    marks[root] = true;
    // By place: the marks that lie ahead are still being added.
    for k in (0..root + 1).rev() {
        if marks[k] {
            mark_arguments(marks, bank[k]);
        }
    }
}

// Takes every mark away.
pub fn clear(marks: &mut [bool])
    ensures { (j : ℕ) → slice_index_or marks.new j false ≡ false }
{
    marks.fill(false);
}

fn mark_arguments(marks: &mut [bool], cell: Cell)
    ensures { Added marks.old cell marks.new }
{
    if let Cell::App { arity, args, .. } = cell {
        mark_all(marks, &args[..(arity as usize).min(4)]);
    }
}

// Cells that have no mark are passed over.
fn mark_all(marks: &mut [bool], cells: &[u16])
    ensures { Joined marks.old cells.now marks.new }
{
    for cell in cells {
        // By place: what is written through `get_mut` was not found again in the slice by the proof.
        let at = *cell as usize;
        if at < marks.len() {
            marks[at] = true;
        }
    }
}
