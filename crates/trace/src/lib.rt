// The records of a run: one for each rewriting step, in the caller's memory.
#![tactic(auto)]

ghost use Rattle.std.specs.Prelude.{◌≡◌};
ghost use Rattle.lent_list.specs.Words.{Appended};
ghost use Rattle.std.proofs.Common.{rules};

use lent_list::{Exact, List};
use terms::side::Side;

// Which side was rewritten, by which equation, the cell that was replaced, the cell put in, and the cell of the side's term after it.
#[derive(Clone, Copy, PartialEq, Eq, Debug)]
pub struct Step {
    pub side: Side,
    pub equation: u16,
    pub replaced: u16,
    pub put_in: u16,
    pub after: u16,
}

impl Exact for Step {
    ghost exact = { Prim.search rules };
}

// One record more, unless the trace is full.
pub fn record(trace: &mut List<'_, Step>, step: Step) -> bool
    ensures { Appended trace.old.cells.now trace.old.count.now.len trace.new.cells.now trace.new.count.now.len step result }
{
    trace.append(step)
}

#[cfg(test)]
mod tests {
    use super::*;
    use lent_list::Count;

    #[test]
    fn records_until_full(rt: HostRuntime) {
        let step = Step {
            side: Side::Left,
            equation: 2,
            replaced: 2,
            put_in: 5,
            after: 5,
        };
        let other = Step {
            side: Side::Right,
            equation: 1,
            replaced: 4,
            put_in: 1,
            after: 3,
        };
        let mut cells = [step; 2];
        let mut count = Count { len: 0 };
        let mut trace = List::over(&mut cells, &mut count);
        assert!(rt; record(&mut trace, step));
        assert!(rt; record(&mut trace, other));
        assert!(rt; !record(&mut trace, step));
        assert_eq!(rt; trace.find_first(other), Some(1));
        assert_eq!(rt; trace.len(), 2);
    }
}
