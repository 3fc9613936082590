// What a line of the script can say.
ghost use Rattle.std.specs.Prelude.{◌≡◌};
ghost use Rattle.script.specs.declared.call.Fault.TheVariants.{NoMemory as MemoryGone};

use std::alloc::AllocFailed;

#[derive(Clone, Copy, PartialEq, Eq, Debug)]
pub enum Order {
    Kbo,
    Lpo,
}

#[derive(Clone, Copy, PartialEq, Eq, Debug)]
pub enum Index {
    List,
    Tree,
}

// How large the bank and the trace of a call may grow.
#[derive(Clone, Copy, PartialEq, Eq, Debug)]
pub struct Limits {
    pub bank: u32,
    pub trace: u32,
}

#[derive(Drop)]
pub struct Goal {
    pub limits: Limits,
    pub formula: Vec<u8>,
}

// The word that a line begins with.
#[derive(Clone, Copy, PartialEq, Eq, Debug)]
pub enum Word {
    Signature,
    Open,
    Add,
    Remove,
    Audit,
    Release,
    Simplify,
    Judge,
    Read,
}

#[derive(Drop)]
pub enum Call {
    Signature(Vec<u8>),
    Open {
        number: u32,
        order: Order,
        index: Index,
    },
    Add {
        number: u32,
        formula: Vec<u8>,
    },
    Remove(u32),
    Audit(Limits),
    Release,
    Simplify(Goal),
    Judge(Goal),
    Read(Vec<u8>),
}

// Why a line gives no call.
#[derive(Clone, Copy, PartialEq, Eq, Debug)]
pub enum Fault {
    Malformed,
    NoMemory,
}

impl From<AllocFailed<u8>> for Fault {
    ghost from_gives = { λ _ f. f ≡ MemoryGone };

    fn from(_: AllocFailed<u8>) -> Fault {
        Fault::NoMemory
    }
}
