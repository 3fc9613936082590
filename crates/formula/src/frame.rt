// A symbol whose parentheses are open: where it stands, how many arguments it should have, and those counted so far. One is counted when
// they open, so that 0 is right for none: neither a constant nor a name that no line has may have any. Four bytes, since there are many.
#[derive(Clone, Copy)]
pub struct Frame {
    pub place: u16,
    pub arity: u8,
    pub args: u8,
}
