// Single tokens of a text.
ghost use Rattle.std.specs.Prelude.{◌≡◌, drop};
ghost use Rattle.lexer.specs.Tokens.{tokens_from};
ghost use Rattle.formula.specs.Scans.{opens as opens_with};

use lexer::scanner::next_token;
use lexer::token::{Kind, Token};

// The place behind n tokens.
pub fn skip_tokens(text: &[u8], at: usize, n: usize) -> usize
    ensures { tokens_from (drop result text.now) result ≡ drop n (tokens_from (drop at text.now) at) }
{
    // By place: where the last token ends is the answer.
    let mut place = at;
    for _ in 0..n {
        let Some(token) = next_token(text, place) else {
            return place;
        };
        place = token.end();
    }
    place
}

// Whether the next token is an opening parenthesis.
pub fn opens(text: &[u8], at: usize) -> bool
    ensures { result ≡ opens_with (tokens_from (drop at text.now) at) }
{
    matches!(
        next_token(text, at),
        Some(Token {
            kind: Kind::Open,
            ..
        })
    )
}
