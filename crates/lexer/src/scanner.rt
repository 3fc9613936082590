// The next token of a text.
ghost use Rattle.std.specs.Prelude.{◌≡◌, ◌+◌, ◌<◌, ◌≤◌, length};
ghost use Rattle.lexer.specs.Next.{Next, lexeme_of, end_of};

use crate::first::first;
use crate::token::{Front, Token};

// The first token from the place `at` on, or None where only separators are left.
pub fn next_token(text: &[u8], at: usize) -> Option<Token<'_>>
    ensures { Next text.now at result }
{
    // By place: a separator is passed over as a whole, and a token says where it stands.
    let mut place = at;
    loop {
        match first(text.get(place..)?)? {
            Front::Gap(n) => place += n,
            Front::Piece(kind, n) => {
                let bytes = &text[place..place + n];
                return Some(Token { kind, bytes, place });
            }
        }
    }
}
