// A reader over a problem text.
ghost use Rattle.std.specs.Prelude.{◌≡◌, ◌<◌, ◌≤◌, length, MatchResult};
ghost use Rattle.refusal.specs.declared.Refusal.TheVariants.{Limits};
ghost use Rattle.grammar.specs.Outcomes.{Handed};

use crate::check::LONGEST;
use crate::machine::formula_end;
use crate::part::Part;
use lexer::scanner::next_token;
use refusal::Refusal;

// Stands at a place of a lent text.
#[derive(Drop)]
pub struct Reader<'a> {
    text: &'a [u8],
    at: usize,
}

impl<'a> Reader<'a> {
    // A reader at the start of a text, unless the text is too long.
    pub fn over(text: &'a [u8]) -> Result<Reader<'a>, Refusal>
        ensures { MatchResult result (λ s. (length text.now ≤ 32768) × (s.text.now ≡ text.now) × (s.at ≡ 0)) (λ e. (32768 < length text.now) × (e ≡ Limits)) }
    {
        if text.len() > LONGEST {
            return Err(Refusal::Limits);
        }
        Ok(Reader { text, at: 0 })
    }

    // The next formula with its place, or None where only separators are left. A refusal leaves the reader where it was.
    pub fn next(&mut self) -> Result<Option<Part<'a>>, Refusal>
        ensures same { self.new.text.now ≡ self.old.text.now }
        ensures handed { Handed self.old.text.now self.old.at result self.new.at }
    {
        let text = self.text;
        let Some(first) = next_token(text, self.at) else {
            return Ok(None);
        };
        let end = formula_end(text, first.place)?;
        self.at = end;
        Ok(Some(Part {
            bytes: &text[first.place..end],
            place: first.place,
        }))
    }
}
