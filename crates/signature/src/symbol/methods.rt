ghost use Rattle.std.specs.Prelude.{◌≡◌, MatchOption};
ghost use Rattle.std.specs.List.{list_any};
ghost use Rattle.std.specs.Str.{bytes_eq};
ghost use Rattle.signature.specs.Lines.{spelled};
ghost use Rattle.signature.specs.Texts.{Line, WellFormed, Fields};
ghost use Rattle.signature.specs.Signatures.{line_of};

use super::Symbol;
use crate::name::Name;
use fields::number;

impl Symbol {
    // The symbol of a line's three fields, if each is well formed.
    pub(crate) fn new(name: &[u8], arity: &[u8], weight: &[u8]) -> Option<Symbol>
        ensures { MatchOption result ((l : Line) → WellFormed l → Fields l name.now arity.now weight.now → ⊥) (λ s. Fields (line_of s) name.now arity.now weight.now) }
    {
        let name = Name::new(name)?;
        let arity = number(arity, 4)?;
        let weight = number(weight, 100)?;
        if weight == 0 {
            return None;
        }
        Some(Symbol {
            name,
            arity: arity as u8,
            weight: weight as u8,
        })
    }
}

// Whether one of the symbols has this name.
pub(crate) fn is_taken(symbols: &[Symbol], name: &[u8]) -> bool
    ensures { result ≡ list_any (λ (y : Symbol). bytes_eq (spelled y.name) name.now) symbols.now }
{
    symbols.iter().any(|symbol| symbol.name.bytes() == name)
}
