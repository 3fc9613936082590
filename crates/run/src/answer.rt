// What a run comes to.
ghost use Rattle.std.specs.Prelude.{Some};
ghost use Rattle.run.specs.Words.{verdict_word};

use reduction::outcome::Outcome;
use std::fmt;

// How a side ended, and the cell of its term.
#[derive(Clone, Copy, PartialEq, Eq, Debug)]
pub struct Ended {
    pub outcome: Outcome,
    pub cell: u16,
}

// Met: both sides finished at one cell. Parted: they finished at two. Open: not both finished.
#[derive(Clone, Copy, PartialEq, Eq, Debug)]
pub enum Verdict {
    Met,
    Parted,
    Open,
}

impl fmt::Display for Verdict {
    ghost output = { λ v. Some (verdict_word v) };

    fn fmt<W: fmt::Write>(&self, f: &mut fmt::Formatter<W>) -> fmt::Result {
        f.write_str(match self {
            Verdict::Met => "met",
            Verdict::Parted => "parted",
            Verdict::Open => "open",
        })
    }
}

// `steps` and `terms` are the counts of trace and bank.
#[derive(Clone, Copy, PartialEq, Eq, Debug)]
pub struct Answer {
    pub left: Ended,
    pub right: Ended,
    pub steps: usize,
    pub terms: usize,
    pub verdict: Verdict,
}
