// The lines that tell a run: its head, and one for each step.
#![tactic(auto)]

ghost use Rattle.std.specs.Prelude.{Some};
ghost use Rattle.report.specs.Lines.{end_text, head_text, step_text};

use run::answer::{Answer, Ended};
use std::fmt;
use terms::side::Side;
use trace::Step;

pub mod term;

// How one side ended.
#[derive(Clone, Copy)]
struct End {
    side: Side,
    ended: Ended,
}

#[derive(Clone, Copy)]
pub struct Head {
    pub answer: Answer,
}

#[derive(Clone, Copy)]
pub struct Line {
    pub step: Step,
}

impl fmt::Display for End {
    ghost output = { λ e. Some (end_text e.side e.ended) };

    fn fmt<W: fmt::Write>(&self, f: &mut fmt::Formatter<W>) -> fmt::Result {
        let Ended { outcome, cell } = self.ended;
        write!(f, "{} {outcome} {cell}", self.side)
    }
}

impl fmt::Display for Head {
    ghost output = { λ h. Some (head_text h.answer) };

    fn fmt<W: fmt::Write>(&self, f: &mut fmt::Formatter<W>) -> fmt::Result {
        let Answer {
            left,
            right,
            steps,
            terms,
            verdict,
        } = self.answer;
        let left = End {
            side: Side::Left,
            ended: left,
        };
        let right = End {
            side: Side::Right,
            ended: right,
        };
        write!(f, "{left} {right} steps {steps} terms {terms} {verdict}")
    }
}

impl fmt::Display for Line {
    ghost output = { λ l. Some (step_text l.step) };

    fn fmt<W: fmt::Write>(&self, f: &mut fmt::Formatter<W>) -> fmt::Result {
        let Step {
            side,
            equation,
            replaced,
            put_in,
            after,
        } = self.step;
        write!(f, "step {side} {equation} {replaced} {put_in} {after}")
    }
}
