// Tokens, and what may stand first in a text.
ghost use Rattle.std.specs.Prelude.{◌+◌, ◌^◌, ◌<◌, length};

#[derive(Clone, Copy, PartialEq, Eq, Debug)]
pub enum Kind {
    Word,
    Variable,
    Open,
    Close,
    Comma,
    Dot,
    Equal,
    Unequal,
    Stray,
}

// A token with its bytes, and the place of its first byte in the text.
#[derive(Clone, Copy)]
pub struct Token<'a> {
    pub kind: Kind,
    pub bytes: &'a [u8],
    pub place: usize,
    ghost ends: { place + length bytes.now < 2 ^ 64 },
}

impl Token<'_> {
    ghost use Rattle.std.specs.Prelude.{◌≡◌};
    ghost use Rattle.lexer.specs.Next.{lexeme_of, end_of};

    // The place behind the token.
    pub fn end(&self) -> usize
        ensures { result ≡ end_of (lexeme_of self.now) }
    {
        self.place + self.bytes.len()
    }
}

// What may stand first in a text, with its number of bytes: a separator, or a token.
#[derive(Clone, Copy)]
pub enum Front {
    Gap(usize),
    Piece(Kind, usize),
}
