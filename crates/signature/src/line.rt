// One line of a signature's text, cut at its tabs and its line feed.
ghost use Rattle.std.specs.Prelude.{◌≡◌, ℕ, List, ◌++◌, MatchOption, ◌≢◌};
ghost use Rattle.signature.specs.Texts.{Line, WellFormed, text_of};
ghost use Rattle.signature.specs.Signatures.{line_of};

use crate::symbol::Symbol;
use fields::cut;

// The symbol of the line that the text begins with, if the line is well formed, and the text after the line.
pub(crate) fn first_line(text: &[u8]) -> Option<(Symbol, &[u8])>
    ensures { MatchOption result ((l : Line) (after : List ℕ) → WellFormed l → text.now ≢ text_of l ++ after) (λ f. text.now ≡ text_of (line_of f.0) ++ f.1.now) }
{
    let name = cut(text, b'\t')?;
    let arity = cut(name.after, b'\t')?;
    let weight = cut(arity.after, b'\n')?;
    let symbol = Symbol::new(name.bytes, arity.bytes, weight.bytes)?;
    Some((symbol, weight.after))
}
