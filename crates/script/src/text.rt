// Texts between double quotes, with escapes.
ghost use Rattle.std.specs.Prelude.{◌≡◌, ℕ, ◌<◌, List, length, Some, None, MatchOption, MatchResult, IfSome};
ghost use Rattle.script.specs.Escapes.{short, hex_digit, pair, onto, unescaped, Quoted, CodesStand, PlainStand};

use crate::call::Fault;
use std::alloc::Global;

// The bytes that a text between double quotes stands for.
pub fn quoted(heap: Global, text: &[u8]) -> Result<Vec<u8>, Fault>
    ensures { MatchResult result (λ v. Quoted text.now v.items) (λ e. e ≡ Fault.Malformed → (bytes : List ℕ) → Quoted text.now bytes → ⊥) }
{
    match text {
        [b'"', inner @ .., b'"'] => unescape(heap, inner),
        _ => Err(Fault::Malformed),
    }
}

// The bytes that a text with escapes stands for.
pub fn unescape(heap: Global, text: &[u8]) -> Result<Vec<u8>, Fault>
    ensures stands { MatchResult result (λ v. unescaped text.now ≡ Some v.items) (λ e. e ≡ Fault.Malformed → unescaped text.now ≡ None) }
    ensures codes_stand { CodesStand }
    ensures plain_stand { PlainStand }
{
    let mut bytes = Vec::new(heap);
    let mut rest = text;
    while !rest.is_empty() {
        let (byte, after) = first_byte(rest).ok_or(Fault::Malformed)?;
        bytes.push(byte)?;
        rest = after;
    }
    Ok(bytes)
}

// The first byte that the text stands for, and the text after it.
fn first_byte(text: &[u8]) -> Option<(u8, &[u8])>
    requires { 0 < length text.now }
    ensures { MatchOption result (unescaped text.now ≡ None) (λ o. (unescaped text.now ≡ onto (Some o.0) (unescaped o.1.now)) × (length o.1.now < length text.now)) }
{
    match text {
        [b'\\', b'x', high, low, rest @ ..] => Some((coded_byte(*high, *low)?, rest)),
        [b'\\', letter, rest @ ..] => Some((short_escape(*letter)?, rest)),
        [b'\\' | b'"' | b'\n', ..] | [] => None,
        [byte, rest @ ..] => Some((*byte, rest)),
    }
}

fn short_escape(letter: u8) -> Option<u8>
    ensures { result ≡ short letter }
{
    match letter {
        b'n' => Some(b'\n'),
        b't' => Some(b'\t'),
        b'r' => Some(b'\r'),
        b'\\' => Some(b'\\'),
        b'"' => Some(b'"'),
        _ => None,
    }
}

// The byte of two hexadecimal digits.
fn coded_byte(high: u8, low: u8) -> Option<u8>
    ensures { result ≡ pair (hex_digit high) (hex_digit low) }
{
    let h = hex_value(high)?;
    let l = hex_value(low)?;
    Some(16 * h + l)
}

fn hex_value(digit: u8) -> Option<u8>
    ensures value { result ≡ hex_digit digit }
    ensures bound { IfSome result (λ v. v < 16) }
{
    let value = char::from(digit).to_digit(16)?;
    Some(value as u8)
}
