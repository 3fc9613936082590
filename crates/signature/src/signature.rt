// A signature: 1 to 64 symbols with names of their own. A later symbol is higher in precedence.
ghost use Rattle.std.specs.Prelude.{◌≤◌, length};
ghost use Rattle.row.specs.Items.{items};
ghost use Rattle.signature.specs.Lines.{Apart, names};

use crate::symbol::Symbol;
use row::Row;

mod methods;
mod reading;

#[derive(Clone, Copy)]
pub struct Signature {
    symbols: Row<Symbol, 64>,
    ghost some: { 1 ≤ length (items symbols) },
    ghost apart: { Apart (names (items symbols)) },
}
