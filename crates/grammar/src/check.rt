// Whether a text is one formula.
ghost use Rattle.std.specs.Prelude.{◌≡◌};
ghost use Rattle.lexer.specs.Tokens.{tokens};
ghost use Rattle.grammar.specs.Fits.{Unambiguous};
ghost use Rattle.grammar.specs.Outcomes.{Checked};

use crate::machine::formula_end;
use lexer::scanner::next_token;
use refusal::Refusal;

// The longest text that is read.
pub const LONGEST: usize = 32768;

// Refuses a text that is too long or is not one formula of the grammar; separators may stand around it.
pub fn check_formula(text: &[u8]) -> Result<(), Refusal>
    ensures outcome { Checked text.now result }
    ensures once { Unambiguous (tokens text.now) }
{
    if text.len() > LONGEST {
        return Err(Refusal::Limits);
    }
    let end = formula_end(text, 0)?;
    match next_token(text, end) {
        Some(token) => Err(Refusal::Grammar(token.place)),
        None => Ok(()),
    }
}
