// What the script's calls answer, a line for each answer.
ghost use Rattle.std.specs.Prelude.{Some};
ghost use Rattle.script.specs.Replies.{text_of};

use refusal::Refusal;
use std::fmt;

#[derive(Clone, Copy)]
pub enum Answer {
    Done,
    Error,
    Refused(Refusal),
    Formula { place: usize, len: usize },
    Nothing,
}

impl fmt::Display for Answer {
    ghost output = { λ a. Some (text_of a) };

    fn fmt<W: fmt::Write>(&self, f: &mut fmt::Formatter<W>) -> fmt::Result {
        match *self {
            Answer::Done => f.write_str("ok"),
            Answer::Error => f.write_str("error"),
            Answer::Refused(refusal) => {
                let number = refusal.number();
                match refusal.place() {
                    Some(place) => write!(f, "refused {number} at {place}"),
                    None => write!(f, "refused {number}"),
                }
            }
            Answer::Formula { place, len } => write!(f, "formula {place} {len}"),
            Answer::Nothing => f.write_str("none"),
        }
    }
}
