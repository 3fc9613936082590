// A cell of a bank: a variable, or a symbol with the cells of its arguments.
ghost use Rattle.std.proofs.Common.{rules};
ghost use Rattle.bank.specs.Arguments.{Arguments};

use lent_list::Exact;

// The slots of `args` past the arity are 0 in a bank that keeps its rules, so that equal cells are equal records.
#[derive(Clone, Copy, PartialEq, Eq, Debug)]
pub enum Cell {
    Var(u8),
    App {
        symbol: u8,
        arity: u8,
        args: [u16; 4],
    },
}

impl Cell {
    // The cells of the arguments, if this is that symbol with so many of them.
    pub fn arguments(&self, symbol: u8, arity: u8) -> Option<[u16; 4]>
        ensures { Arguments self.now symbol arity result }
    {
        match *self {
            Cell::App {
                symbol: f,
                arity: a,
                args,
            } if f == symbol && a == arity => Some(args),
            _ => None,
        }
    }
}

impl Exact for Cell {
    ghost exact = { Prim.search rules };
}
