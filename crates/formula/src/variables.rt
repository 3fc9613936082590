// The variables of a formula in the order of their first occurrence, as parts of its text.
use row::Row;

mod methods;

#[derive(Clone, Copy)]
pub struct Span {
    pub place: usize,
    pub len: usize,
}

#[derive(Clone, Copy)]
pub struct Variables {
    spans: Row<Span, 16>,
}
