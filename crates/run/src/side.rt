// One side rewritten until it ends.
ghost use Rattle.std.specs.Prelude.{◌-◌, ◌≤◌, length};
ghost use Rattle.entries.specs.Stored.{map_of};
ghost use Rattle.run.specs.Sides.{SideRun, Turned};

use crate::answer::Ended;
use apply::apply;
use bank::cell::Cell;
use entries::Entries;
use index::exact::ExactIndex;
use index::index::Index;
use lent_list::Count;
use reach::mark_reached;
use reduction::outcome::Outcome;
use strategy::next_redex;
use terms::side::Side;
use trace::Step;

// `settled` has cells that are known to be no instance of a higher side, and is kept from side to side.
pub fn run_side<I: ExactIndex>(
    index: &I,
    lowers: &Entries<128>,
    side: Side,
    root: u16,
    cells: &mut [Cell],
    count: &mut Count,
    trace: &mut [Step],
    steps: &mut Count,
    settled: &mut [bool],
) -> Ended
    ensures { SideRun (I.Index.stored index.now) (map_of lowers.now) side root cells.old count.old.len trace.old steps.old.len settled.old cells.new count.new.len trace.new steps.new.len settled.new result }
{
    let mut root = root;
    loop {
        match take_turn(
            index, lowers, side, root, cells, count, trace, steps, settled,
        ) {
            Ok(after) => root = after,
            Err(outcome) => {
                return Ended {
                    outcome,
                    cell: root,
                };
            }
        }
    }
}

// The cell of the term after one step more, or how the side ends.
fn take_turn<I: ExactIndex>(
    index: &I,
    lowers: &Entries<128>,
    side: Side,
    root: u16,
    cells: &mut [Cell],
    count: &mut Count,
    trace: &mut [Step],
    steps: &mut Count,
    settled: &mut [bool],
) -> Result<u16, Outcome>
    ensures { Turned (I.Index.stored index.now) (map_of lowers.now) side root cells.old count.old.len trace.old steps.old.len settled.old cells.new count.new.len trace.new steps.new.len settled.new result }
{
    if count.len > cells.len() {
        return Err(Outcome::NoRoom);
    }
    // One for each cell that a bank can have: a run takes no memory from elsewhere.
    let mut marks = [false; 2048];
    mark_reached(&cells[..count.len], root, &mut marks);
    let redex = next_redex(index, &cells[..count.len], root, &marks, settled);
    let redex = redex.ok_or(Outcome::Finished)?;
    if steps.len >= trace.len() {
        return Err(Outcome::Spent);
    }
    let applied = apply(index, lowers, cells, count, root, redex, &marks);
    let applied = applied.ok_or(Outcome::NoRoom)?;
    trace[steps.len] = Step {
        side,
        equation: redex.equation,
        replaced: redex.cell,
        put_in: applied.put_in,
        after: applied.after,
    };
    steps.len += 1;
    Ok(applied.after)
}
