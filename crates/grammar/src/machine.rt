// The states of reading a formula, token by token.
use terms::side::Side;

mod methods;

pub use methods::formula_end;

// Where in the body a term stands: in how many parentheses, on which side, and whether the literal is in parentheses.
#[derive(Clone, Copy)]
pub struct Spot {
    depth: usize,
    side: Side,
    wrapped: bool,
}

// What has been read; the name says what comes next, or what has just been read.
#[derive(Clone, Copy)]
pub enum State {
    Start,
    Opening,
    Name,
    NameComma,
    Role,
    RoleComma,
    Body,
    Term(Spot),
    Named(Spot),
    Closed(Spot),
    Unwrapped,
    Ended,
    Done,
}
