// A session: a file of equations over one signature, each turned by one order, its higher sides in one exact index.
#![tactic(auto)]

ghost use Rattle.std.specs.Prelude.{◌≡◌, false, []};
ghost use Rattle.session.specs.Kept.{Kept};
ghost use Rattle.session.specs.Pasts.{FileAfter, Determined};
ghost use Rattle.file.specs.Kept.{equations};

use file::File;
use index::exact::ExactIndex;
use index::index::Index;
use order::ReductionOrder;
use signature::signature::Signature;

mod adding;
mod checks;
mod removing;
mod simplifying;

#[derive(Drop)]
pub struct Session<I, O> {
    number: u16,
    signature: Signature,
    order: O,
    file: File<I>,
    sealed: bool,
}

impl<I: ExactIndex, O: ReductionOrder> Session<I, O> {
    // Whatever the index had, the session has no equations.
    pub fn open(number: u16, signature: Signature, index: I, order: O) -> Session<I, O>
        ensures kept { Kept I.Index.stored O.ReductionOrder.above result }
        ensures bare { FileAfter signature (O.ReductionOrder.above order signature) [] (equations I.Index.stored result.file) }
        ensures determined { Determined signature (O.ReductionOrder.above order signature) }
        ensures given { (result.number ≡ number) × (result.signature ≡ signature) × (result.order ≡ order) × (result.sealed ≡ false) }
    {
        Session {
            number,
            signature,
            order,
            file: File::empty(index),
            sealed: false,
        }
    }

    pub fn number(&self) -> u16
        ensures { result ≡ self.now.number }
    {
        self.number
    }

    pub fn signature(&self) -> &Signature
        ensures { result.now ≡ self.now.signature }
    {
        &self.signature
    }

    pub fn order(&self) -> &O
        ensures { result.now ≡ self.now.order }
    {
        &self.order
    }

    pub fn file(&self) -> &File<I>
        ensures { result.now ≡ self.now.file }
    {
        &self.file
    }
}
