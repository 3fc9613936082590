// Fields of a text: up to the byte that ends them, and numbers in decimal without a sign and without leading zeros.
#![tactic(auto)]

ghost use Rattle.std.specs.Prelude.{◌≡◌, ℕ, ◌≤◌, decimal, MatchOption, ◌≢◌};
ghost use Rattle.fields.specs.Cuts.{Without, Cut};

// A field, and the text after the byte that ends it.
#[derive(Clone, Copy)]
pub struct Field<'a> {
    pub bytes: &'a [u8],
    pub after: &'a [u8],
}

// The text up to the first byte `end`, and after it.
pub fn cut(text: &[u8], end: u8) -> Option<Field<'_>>
    ensures { MatchOption result (Without end text.now) (λ f. Cut end text.now f.bytes.now f.after.now) }
{
    let at = text.iter().position(|byte| *byte == end)?;
    Some(Field {
        bytes: &text[..at],
        after: &text[at + 1..],
    })
}

// The number that the text writes, if it is at most `most`.
pub fn number(text: &[u8], most: u32) -> Option<u32>
    ensures { MatchOption result ((n : ℕ) → n ≤ most → text.now ≢ decimal n) (λ n. (n ≤ most) × (text.now ≡ decimal n)) }
{
    if let [] | [b'0', _, ..] = text {
        return None;
    }
    let mut n: u64 = 0;
    for digit in text {
        if !digit.is_ascii_digit() {
            return None;
        }
        n = 10 * n + (*digit - b'0') as u64;
        if n > most as u64 {
            return None;
        }
    }
    Some(n as u32)
}

#[cfg(test)]
mod tests {
    use super::*;
    use std::test::Fail;

    // Texts, with the number that each writes, if it is at most the last one.
    static NUMBERS: [(&[u8], Option<u32>, u32); 8] = [
        (b"0", Some(0), 4),
        (b"100", Some(100), 100),
        (b"101", None, 100),
        (b"4294967295", Some(4_294_967_295), 4_294_967_295),
        (b"18446744073709551616", None, 4_294_967_295),
        (b"", None, 4),
        (b"00", None, 4),
        (b"+1", None, 4),
    ];

    #[test]
    fn numbers(rt: HostRuntime) {
        for (text, value, most) in &NUMBERS {
            assert_eq!(rt; number(text, *most), *value);
        }
    }

    #[test]
    fn cuts(rt: HostRuntime) -> Result<(), Fail> {
        let field = cut(b"a b c", b' ').ok_or("no space")?;
        assert!(rt; field.bytes == b"a".as_slice() && field.after == b"b c".as_slice());
        assert!(rt; cut(b"abc", b' ').is_none());
        Ok(())
    }
}
