// How the rewriting of one side ends.
ghost use Rattle.std.specs.Prelude.{Some};
ghost use Rattle.reduction.specs.Words.{outcome_word};

use std::fmt;

#[derive(Clone, Copy, PartialEq, Eq, Debug)]
pub enum Outcome {
    // No step exists.
    Finished,
    // A step exists, and the trace is full.
    Spent,
    // A step exists, and the bank cannot take its terms.
    NoRoom,
}

impl fmt::Display for Outcome {
    ghost output = { λ o. Some (outcome_word o) };

    fn fmt<W: fmt::Write>(&self, f: &mut fmt::Formatter<W>) -> fmt::Result {
        f.write_str(match self {
            Outcome::Finished => "finished",
            Outcome::Spent => "spent",
            Outcome::NoRoom => "noroom",
        })
    }
}
