// What stands first in a text.
ghost use Rattle.std.specs.Prelude.{◌≡◌, ◌+◌, ◌<◌, ◌≤◌, length, IfSome};
ghost use Rattle.std.specs.List.{prefix_len};
ghost use Rattle.signature.specs.Words.{wordly};
ghost use Rattle.lexer.specs.Tokens.{in_line, length_of_block, mark, first as first_of};

use crate::token::{Front, Kind};
use signature::words::is_wordly;

// How many bytes a block comment has behind its opening, or None where it is never closed.
fn block_length(text: &[u8]) -> Option<usize>
    ensures is { result ≡ length_of_block text.now }
    ensures within { IfSome result (λ n. n ≤ length text.now) }
{
    let mut n = 0;
    let mut rest = text;
    // By hand: of `windows(2)` with `position`, the proof learns nothing of the pairs before the one that is found.
    loop {
        match rest {
            [] => return None,
            [b'*', b'/', ..] => return Some(n + 2),
            [_, tail @ ..] => {
                n += 1;
                rest = tail;
            }
        }
    }
}

// How many bytes at the front of a text a word goes on over.
fn word_length(text: &[u8]) -> usize
    ensures is { result ≡ prefix_len wordly text.now }
    ensures within { result ≤ length text.now }
{
    text.iter().take_while(|byte| is_wordly(**byte)).count()
}

// How many bytes at the front of a text stand before the line's end.
fn line_length(text: &[u8]) -> usize
    ensures is { result ≡ prefix_len in_line text.now }
    ensures within { result ≤ length text.now }
{
    text.iter().take_while(|byte| **byte != b'\n').count()
}

// The token that a single byte is.
fn mark_of(b: u8) -> Kind
    ensures { result ≡ mark b }
{
    match b {
        b'(' => Kind::Open,
        b')' => Kind::Close,
        b',' => Kind::Comma,
        b'.' => Kind::Dot,
        b'=' => Kind::Equal,
        _ => Kind::Stray,
    }
}

// The separator or token at the front of a text, if there is any byte.
pub fn first(text: &[u8]) -> Option<Front>
    ensures { result ≡ first_of text.now }
{
    match text {
        [] => None,
        [b' ' | b'\t' | b'\r' | b'\n', ..] => Some(Front::Gap(1)),
        [b'%', rest @ ..] => Some(Front::Gap(1 + line_length(rest))),
        [b'/', b'*', rest @ ..] => match block_length(rest) {
            Some(n) => Some(Front::Gap(2 + n)),
            None => Some(Front::Piece(Kind::Stray, 1)),
        },
        [b'!', b'=', ..] => Some(Front::Piece(Kind::Unequal, 2)),
        [b'a'..=b'z', rest @ ..] => Some(Front::Piece(Kind::Word, 1 + word_length(rest))),
        [b'A'..=b'Z', rest @ ..] => Some(Front::Piece(Kind::Variable, 1 + word_length(rest))),
        [b, ..] => Some(Front::Piece(mark_of(*b), 1)),
    }
}
