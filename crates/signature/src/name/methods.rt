ghost use Rattle.std.specs.Prelude.{◌≡◌, ◌≤◌, true, length, MatchOption};
ghost use Rattle.signature.specs.Words.{is_word};
ghost use Rattle.signature.specs.Lines.{spelled};

use super::Name;
use crate::words::is_word;
use row::Row;

impl Name {
    // The name that is spelled like this, if it is a word and short enough.
    pub(crate) fn new(text: &[u8]) -> Option<Name>
        ensures { MatchOption result (is_word text.now ≡ true → length text.now ≤ 16 → ⊥) (λ n. spelled n ≡ text.now) }
    {
        if !is_word(text) {
            return None;
        }
        let bytes = Row::from_slice(text, 0)?;
        Some(Name { bytes })
    }

    pub fn bytes(&self) -> &[u8]
        ensures { result.now ≡ spelled self.now }
    {
        self.bytes.as_slice()
    }
}
