// Simplifying a goal.
ghost use Rattle.session.specs.Simplifies.{GoalChecked, Simplifies};

use super::Session;
use bank::cell::Cell;
use formula::equation::Equation;
use index::exact::ExactIndex;
use index::index::Index;
use lent_list::Count;
use order::ReductionOrder;
use refusal::Refusal;
use round_trip::read;
use run::answer::Answer;
use run::goal::{check_room, run_goal};
use trace::Step;

impl<I: ExactIndex, O: ReductionOrder> Session<I, O> {
    // The text is one goal. Bank and trace are the caller's, and are emptied first.
    pub fn simplify(
        &self,
        text: &[u8],
        cells: &mut [Cell],
        count: &mut Count,
        trace: &mut [Step],
        steps: &mut Count,
    ) -> Result<Answer, Refusal>
        ensures { Simplifies I.Index.stored O.ReductionOrder.above self.now text.now cells.old count.old.len trace.old steps.old.len cells.new count.new.len trace.new steps.new.len result }
    {
        check_room(cells, trace)?;
        let goal = read(&self.signature, text)?;
        check_goal(&goal)?;
        let index = self.file.index();
        let lowers = self.file.lowers();
        run_goal(
            &self.signature,
            index,
            lowers,
            &goal.left,
            &goal.right,
            cells,
            count,
            trace,
            steps,
        )
    }
}

fn check_goal(equation: &Equation) -> Result<(), Refusal>
    ensures { GoalChecked equation.now result }
{
    if !equation.is_goal() {
        return Err(Refusal::RoleOrSign);
    }
    Ok(())
}
