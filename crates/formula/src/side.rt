// One side of a formula as the row of its nodes.
ghost use Rattle.refusal.specs.declared.Refusal.TheVariants.{Size as SizeOf};
ghost use Rattle.std.specs.Prelude.{◌≡◌};

use refusal::Refusal;

mod methods;

pub use methods::{LARGEST, read_side};

// The place of the first cell or variable that is one too many.
#[derive(Clone, Copy, Debug)]
pub struct TooLarge {
    pub place: usize,
}

impl From<TooLarge> for Refusal {
    ghost from_gives = { λ e r. r ≡ SizeOf e.place };

    fn from(e: TooLarge) -> Refusal {
        Refusal::Size(e.place)
    }
}
