// A side of an equation.
ghost use Rattle.std.specs.Prelude.{Some};
ghost use Rattle.terms.specs.Sides.{side_word};

use std::fmt;

#[derive(Clone, Copy, PartialEq, Eq, Debug)]
pub enum Side {
    Left,
    Right,
}

impl fmt::Display for Side {
    ghost output = { λ s. Some (side_word s) };

    fn fmt<W: fmt::Write>(&self, f: &mut fmt::Formatter<W>) -> fmt::Result {
        f.write_str(match *self {
            Side::Left => "left",
            Side::Right => "right",
        })
    }
}
