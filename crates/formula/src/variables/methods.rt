ghost use Rattle.std.specs.Prelude.{◌≡◌, [], position, length, take, drop, is_some, if◌then◌else◌, Some, None, nat_lt};
ghost use Rattle.std.specs.Str.{bytes_eq};
ghost use Rattle.row.specs.Items.{items};
ghost use Rattle.formula.specs.Symbols.{index_of};
ghost use Rattle.formula.specs.Numbering.{with_name};
ghost use Rattle.formula.specs.Rows.{names_in, Added};

use super::{Span, Variables};
use row::Row;

impl Variables {
    pub fn new() -> Variables
        ensures { items result.spans ≡ [] }
    {
        Variables {
            spans: Row::new(Span { place: 0, len: 0 }),
        }
    }

    pub fn count(&self) -> usize
        ensures { result ≡ length (items self.now.spans) }
    {
        self.spans.len()
    }

    // The number of the variable that is spelled like this.
    fn find(&self, text: &[u8], word: &[u8]) -> Option<usize>
        ensures { result ≡ position (λ (s : Span). bytes_eq (take s.len (drop s.place text.now)) word.now) (items self.now.spans) }
    {
        self.spans
            .as_slice()
            .iter()
            .position(|span| slice(text, *span) == word)
    }

    // The number of the variable that stands at a place of the text, which takes its place in the table if it is new; None if there is no
    // place left.
    pub fn number(&mut self, text: &[u8], span: Span) -> Option<u8>
        ensures number { result ≡ (if nat_lt (index_of (take span.len (drop span.place text.now)) (names_in text.now self.old)) 16 then Some (index_of (take span.len (drop span.place text.now)) (names_in text.now self.old)) else None) }
        ensures names { names_in text.now self.new ≡ (if is_some result then with_name (names_in text.now self.old) (take span.len (drop span.place text.now)) else names_in text.now self.old) }
    {
        if let Some(k) = self.find(text, slice(text, span)) {
            return Some(k as u8);
        }
        self.add(span)
    }

    // The variable takes the next number, if there is one left.
    fn add(&mut self, span: Span) -> Option<u8>
        ensures { Added self.old span self.new result }
    {
        let k = self.count();
        self.spans.push(span).ok()?;
        Some(k as u8)
    }
}

// The part of a text, or nothing past its end.
fn slice(text: &[u8], span: Span) -> &[u8]
    ensures { result.now ≡ take span.len (drop span.place text.now) }
{
    let rest = text.get(span.place..).unwrap_or(&[]);
    rest.get(..span.len).unwrap_or(rest)
}
