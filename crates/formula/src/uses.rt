// Counting the arguments of symbols, token by token.
use crate::frame::Frame;
use row::Row;

mod methods;

pub use methods::first_misused;

// A text has at most this many bytes, so no more parentheses are open in it.
const DEEPEST: usize = 32768;

// The symbols whose parentheses are open, and the lowest place of a symbol found misused.
#[derive(Drop)]
pub struct Uses {
    frames: Row<Frame, DEEPEST>,
    lowest: Option<usize>,
}
