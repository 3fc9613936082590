// Words: a lower-case letter, then letters, digits and underscores.
ghost use Rattle.std.specs.Prelude.{◌≡◌};
ghost use Rattle.signature.specs.Words.{wordly, is_word, each_wordly};

// Whether the byte may follow the first letter of a word.
pub fn is_wordly(byte: u8) -> bool
    ensures { result ≡ wordly byte }
{
    byte.is_ascii_alphanumeric() || byte == b'_'
}

pub fn is_word(text: &[u8]) -> bool
    ensures { result ≡ is_word text.now }
{
    match text {
        [] => false,
        [first, rest @ ..] => first.is_ascii_lowercase() && all_wordly(rest),
    }
}

fn all_wordly(text: &[u8]) -> bool
    ensures { result ≡ each_wordly text.now }
{
    text.iter().all(|byte| is_wordly(*byte))
}
