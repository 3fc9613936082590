// A goal: two terms entered into an empty bank, the left side rewritten until it ends, then the right.
ghost use Rattle.std.specs.Prelude.{◌≡◌};
ghost use Rattle.entries.specs.Stored.{map_of};
ghost use Rattle.run.specs.Goals.{GoalRun, EnteredBoth, RoomChecked, verdict_of};

use crate::answer::{Answer, Ended, Verdict};
use crate::side::run_side;
use bank::cell::Cell;
use enter::enter;
use entries::Entries;
use index::exact::ExactIndex;
use index::index::Index;
use lent_list::Count;
use reduction::outcome::Outcome;
use refusal::Refusal;
use signature::signature::Signature;
use terms::pattern::Pattern;
use terms::side::Side;
use trace::Step;

pub fn run_goal<I: ExactIndex>(
    signature: &Signature,
    index: &I,
    lowers: &Entries<128>,
    left: &Pattern,
    right: &Pattern,
    cells: &mut [Cell],
    count: &mut Count,
    trace: &mut [Step],
    steps: &mut Count,
) -> Result<Answer, Refusal>
    ensures { GoalRun signature.now (I.Index.stored index.now) (map_of lowers.now) left.now right.now cells.old count.old.len trace.old steps.old.len cells.new count.new.len trace.new steps.new.len result }
{
    check_room(cells, trace)?;
    let (left, right) = enter_both(signature, left, right, cells, count)?;
    steps.len = 0;
    // One for each cell that a bank can have: a run takes no memory from elsewhere.
    let mut settled = [false; 2048];
    let left = run_side(
        index,
        lowers,
        Side::Left,
        left,
        cells,
        count,
        trace,
        steps,
        &mut settled,
    );
    let right = run_side(
        index,
        lowers,
        Side::Right,
        right,
        cells,
        count,
        trace,
        steps,
        &mut settled,
    );
    Ok(Answer {
        left,
        right,
        steps: steps.len,
        terms: count.len,
        verdict: verdict(left, right),
    })
}

// 1 to 2,048 cells, and at most 4,096 records.
pub fn check_room(cells: &[Cell], trace: &[Step]) -> Result<(), Refusal>
    ensures { RoomChecked cells.now trace.now result }
{
    if cells.is_empty() || cells.len() > 2048 || trace.len() > 4096 {
        return Err(Refusal::Limits);
    }
    Ok(())
}

// The cells of both terms in a bank that was emptied; where they do not fit, it stays empty.
fn enter_both(
    signature: &Signature,
    left: &Pattern,
    right: &Pattern,
    cells: &mut [Cell],
    count: &mut Count,
) -> Result<(u16, u16), Refusal>
    ensures { EnteredBoth signature.now left.now right.now cells.old cells.new count.new.len result }
{
    count.len = 0;
    let left = enter(signature, left, cells, count)?;
    match enter(signature, right, cells, count) {
        Ok(right) => Ok((left, right)),
        Err(refusal) => {
            count.len = 0;
            Err(refusal)
        }
    }
}

pub fn verdict(left: Ended, right: Ended) -> Verdict
    ensures { result ≡ verdict_of left right }
{
    match (left.outcome, right.outcome) {
        (Outcome::Finished, Outcome::Finished) => {
            if left.cell == right.cell {
                Verdict::Met
            } else {
                Verdict::Parted
            }
        }
        _ => Verdict::Open,
    }
}
