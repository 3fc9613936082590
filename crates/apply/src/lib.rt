// One step of a run: the redex replaced everywhere in a term, or nothing changed.
#![tactic(auto)]

ghost use Rattle.entries.specs.Stored.{map_of};
ghost use Rattle.apply.specs.Applies.{Applies};

use bank::cell::Cell;
use entries::Entries;
use index::exact::ExactIndex;
use index::index::Index;
use lent_list::Count;
use matching::match_cell;
use rebuild::Change;
use strategy::Redex;
use take_back::TakeBack;

mod take_back;

// The cell put in the redex's place, and the cell of the term after the step.
#[derive(Clone, Copy)]
pub struct Applied {
    pub put_in: u16,
    pub after: u16,
}

// `lowers` has the lower side of each equation whose higher side the index has; `marks` has the root's subterms.
// None, and the bank as it was, if the bank has no room for the step's terms.
pub fn apply<I: ExactIndex>(
    index: &I,
    lowers: &Entries<128>,
    cells: &mut [Cell],
    count: &mut Count,
    root: u16,
    redex: Redex,
    marks: &[bool],
) -> Option<Applied>
    ensures { Applies (I.Index.stored index.now) (map_of lowers.now) cells.old count.old.len root redex.cell redex.equation marks.now cells.new count.new.len result }
{
    let higher = index.get(redex.equation).ok()?;
    let lower = lowers.get(redex.equation).ok()?;
    if count.len > cells.len() {
        return None;
    }
    let bindings = match_cell(&higher, &cells[..count.len], redex.cell)?;
    let mut guard = TakeBack::over(count);
    let put_in = guard.enter(&lower, &bindings, cells)?;
    let change = Change {
        replaced: redex.cell,
        put_in,
    };
    let after = guard.rebuild(cells, root, change, marks)?;
    guard.commit();
    Some(Applied { put_in, after })
}
