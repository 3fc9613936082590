// A symbol: its name, its arity from 0 to 4, its weight from 1 to 100.
ghost use Rattle.std.specs.Prelude.{◌≤◌};

use crate::name::Name;

mod methods;

pub(crate) use methods::is_taken;

#[derive(Clone, Copy)]
pub struct Symbol {
    pub(crate) name: Name,
    pub(crate) arity: u8,
    pub(crate) weight: u8,
    ghost arity_most: { arity ≤ 4 },
    ghost weight_least: { 1 ≤ weight },
    ghost weight_most: { weight ≤ 100 },
}
