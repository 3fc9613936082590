// The pieces of a text, of which one turn of the walk gives one: a name has at most 16 bytes.
ghost use Rattle.std.specs.Prelude.{◌≡◌, ◌<◌, [], ◌∷◌, length, decimal, slice_index_or, IsSomeAnd};
ghost use Rattle.signature.specs.Signatures.{sig_of, names_of};
ghost use Rattle.row.specs.Items.{items};

use row::Row;
use signature::signature::Signature;

pub type Piece = Row<u8, 16>;

pub fn mark(byte: u8) -> Option<Piece>
    ensures { IsSomeAnd result (λ p. items p ≡ byte ∷ []) }
{
    Row::from_slice(&[byte], 0)
}

// 'X' and the variable's number.
pub fn variable(x: u8) -> Option<Piece>
    requires { x < 32 }
    ensures { IsSomeAnd result (λ p. items p ≡ 88 ∷ decimal x) }
{
    if x < 10 {
        Row::from_slice(&[b'X', b'0' + x], 0)
    } else {
        Row::from_slice(&[b'X', b'0' + x / 10, b'0' + x % 10], 0)
    }
}

pub fn name(signature: &Signature, symbol: u8) -> Option<Piece>
    requires { symbol < (sig_of signature.now).symbols }
    ensures { IsSomeAnd result (λ p. (items p ≡ slice_index_or (names_of signature.now) symbol []) × (0 < length (items p))) }
{
    Row::from_slice(signature.name(symbol)?.bytes(), 0)
}
