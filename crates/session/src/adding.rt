// Adding an equation.
ghost use Rattle.session.specs.Promises.{Adds};

use super::Session;
use crate::checks::{check_number, check_rule, turn};
use index::exact::ExactIndex;
use index::index::Index;
use order::ReductionOrder;
use refusal::Refusal;
use round_trip::read;

impl<I: ExactIndex, O: ReductionOrder> Session<I, O> {
    // The text is one formula: an axiom or a hypothesis that states an equation.
    pub fn add(&mut self, number: u32, text: &[u8]) -> Result<(), Refusal>
        ensures { Adds I.Index.stored I.Index.numbers O.ReductionOrder.above I.Index.CAPACITY self.old number text.now result self.new }
    {
        if self.sealed {
            return Err(Refusal::Sealed);
        }
        let number = check_number(number)?;
        let equation = read(&self.signature, text)?;
        check_rule(&equation)?;
        self.file.check_free(number)?;
        let rule = turn(&self.order, &self.signature, &equation)?;
        self.file.insert(number, &rule)
    }
}
