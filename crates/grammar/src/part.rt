// What a reader hands out, and how the grammar can be broken.
ghost use Rattle.std.specs.Prelude.{◌≡◌};
ghost use Rattle.refusal.specs.declared.Refusal.TheVariants.{Grammar};

use refusal::Refusal;

// One formula of a problem text, from cnf to its dot, with the place of its first byte.
#[derive(Clone, Copy)]
pub struct Part<'a> {
    pub bytes: &'a [u8],
    pub place: usize,
}

// The place of the first token that cannot follow, or the length of a text that gives out.
#[derive(Clone, Copy, Debug)]
pub struct Fault {
    pub place: usize,
}

// A fault of the grammar is a refusal with its place.
impl From<Fault> for Refusal {
    ghost from_gives = { λ f r. r ≡ Grammar f.place };

    fn from(fault: Fault) -> Refusal {
        Refusal::Grammar(fault.place)
    }
}
