// Bytes of any content as text: one character for each byte, so that columns stay columns.
ghost use Rattle.std.specs.Prelude.{Some};
ghost use Rattle.printing.specs.Words.{higher_text};

use formula::equation::Sign;
use sides::Sides;
use std::fmt;
use terms::side::Side;

#[derive(Clone, Copy)]
pub struct Shown<'a>(pub &'a [u8]);

fn shown_byte(byte: u8) -> char {
    match byte {
        b' '..=b'~' => byte as char,
        b'\t' => ' ',
        _ => '?',
    }
}

impl<'a> fmt::Display for Shown<'a> {
    fn fmt<W: fmt::Write>(&self, f: &mut fmt::Formatter<W>) -> fmt::Result {
        for byte in self.0 {
            f.write_char(shown_byte(*byte))?;
        }
        Ok(())
    }
}

// A line of text, and a mark under one of its columns.
#[derive(Clone, Copy)]
pub struct Marked<'a> {
    pub line: &'a [u8],
    pub column: usize,
}

impl<'a> fmt::Display for Marked<'a> {
    fn fmt<W: fmt::Write>(&self, f: &mut fmt::Formatter<W>) -> fmt::Result {
        let line = Shown(self.line);
        write!(f, "    | {line}\n    | ")?;
        for _ in 1..self.column {
            f.write_char(' ')?;
        }
        f.write_char('^')
    }
}

// Numbers in a row.
#[derive(Clone, Copy)]
pub struct Listed<'a>(pub &'a [u16]);

impl<'a> fmt::Display for Listed<'a> {
    fn fmt<W: fmt::Write>(&self, f: &mut fmt::Formatter<W>) -> fmt::Result {
        let [first, rest @ ..] = self.0 else {
            return f.write_str("none");
        };
        write!(f, "{first}")?;
        for number in rest {
            write!(f, ", {number}")?;
        }
        Ok(())
    }
}

// An equation's sides with the sign between them.
#[derive(Clone, Copy)]
pub struct Equality<'a> {
    pub sides: &'a Sides,
    pub sign: Sign,
}

impl<'a> fmt::Display for Equality<'a> {
    fn fmt<W: fmt::Write>(&self, f: &mut fmt::Formatter<W>) -> fmt::Result {
        let left = Shown(self.sides.left.as_slice());
        let right = Shown(self.sides.right.as_slice());
        let sign = self.sign;
        write!(f, "{left} {sign} {right}")
    }
}

// Which side is the higher, if one is.
#[derive(Clone, Copy)]
pub struct Higher(pub Option<Side>);

impl fmt::Display for Higher {
    ghost output = { λ h. Some (higher_text h.0) };

    fn fmt<W: fmt::Write>(&self, f: &mut fmt::Formatter<W>) -> fmt::Result {
        match self.0 {
            Some(side) => write!(f, "the {side} side is higher"),
            None => f.write_str("neither side is higher"),
        }
    }
}
