// A symbol's name: a word of at most 16 bytes.
ghost use Rattle.std.specs.Prelude.{◌≡◌, true};
ghost use Rattle.row.specs.Items.{items};
ghost use Rattle.signature.specs.Words.{is_word};

use row::Row;

mod methods;

#[derive(Clone, Copy)]
pub struct Name {
    bytes: Row<u8, 16>,
    ghost word: { is_word (items bytes) ≡ true },
}
