// Taking an equation out.
ghost use Rattle.session.specs.Promises.{Removes};

use super::Session;
use crate::checks::check_number;
use index::exact::ExactIndex;
use index::index::Index;
use order::ReductionOrder;
use refusal::Refusal;

impl<I: ExactIndex, O: ReductionOrder> Session<I, O> {
    pub fn remove(&mut self, number: u32) -> Result<(), Refusal>
        ensures { Removes I.Index.stored I.Index.numbers O.ReductionOrder.above self.old number result self.new }
    {
        if self.sealed {
            return Err(Refusal::Sealed);
        }
        let number = check_number(number)?;
        self.file.remove(number)
    }
}
