// A side's final term, as a line.
use std::fmt;
use terms::side::Side;

// The text is a term's, which has ASCII letters, digits and marks only.
#[derive(Clone, Copy)]
pub struct Final<'a> {
    pub side: Side,
    pub text: &'a [u8],
}

impl<'a> fmt::Display for Final<'a> {
    fn fmt<W: fmt::Write>(&self, f: &mut fmt::Formatter<W>) -> fmt::Result {
        write!(f, "final {} ", self.side)?;
        for byte in self.text {
            f.write_char(*byte as char)?;
        }
        Ok(())
    }
}
