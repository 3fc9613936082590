// An exact index over any index: of its candidates it keeps those that generalize the cell's term.
#![tactic(auto)]

ghost use Rattle.std.specs.Prelude.{◌≡◌, ◌<◌, length, Decides};
ghost use Rattle.terms.specs.Sig.{Sig};
ghost use Rattle.bank.specs.Rules.{Rules};
ghost use Rattle.index.specs.Found.{Generalizes};

use bank::cell::Cell;
use index::exact::ExactIndex;
use index::index::Index;
use lent_list::Count;
use matching::is_instance;
use refusal::Refusal;
use retain::retain;
use terms::pattern::Pattern;

mod retain;

#[derive(Clone, Copy, Drop)]
pub struct Filter<I> {
    inner: I,
}

impl<I> Filter<I> {
    pub fn over(inner: I) -> Filter<I>
        ensures { result.inner ≡ inner }
    {
        Filter { inner }
    }

    pub fn inner(&self) -> &I
        ensures { result.now ≡ self.now.inner }
    {
        &self.inner
    }
}

impl<I: Index> Index for Filter<I> {
    const CAPACITY: usize = I::CAPACITY;

    ghost CAPACITY = { I.Index.CAPACITY };

    ghost stored = { λ s. I.Index.stored s.inner };

    ghost numbers = { λ s. I.Index.numbers s.inner };

    ghost least = { I.Index.least };

    ghost most = { I.Index.most };

    ghost stores = { λ s. I.Index.stores s.inner };

    ghost fits = { λ s. I.Index.fits s.inner };

    fn clear(&mut self) {
        self.inner.clear();
    }

    fn insert(&mut self, number: u16, pattern: &Pattern) -> Result<(), Refusal> {
        self.inner.insert(number, pattern)
    }

    fn remove(&mut self, number: u16) -> Result<(), Refusal> {
        self.inner.remove(number)
    }

    fn get(&self, number: u16) -> Result<Pattern, Refusal> {
        self.inner.get(number)
    }

    fn retrieve(&self, bank: &[Cell], cell: u16, list: &mut [u16], found: &mut Count) {
        self.inner.retrieve(bank, cell, list, found);
    }
}

impl<I: Index> ExactIndex for Filter<I> {
    fn retrieve_exact(&self, bank: &[Cell], cell: u16, list: &mut [u16], found: &mut Count) {
        self.inner.retrieve(bank, cell, list, found);
        let index = &self.inner;
        let fits = |number: u16| -> bool
            ensures { (S : Sig) → Rules S bank.entry.now → cell < length bank.entry.now → Decides result (Generalizes (I.Index.stored index.entry.now) bank.entry.now cell number) }
        { generalizes(index, bank, cell, number) };
        retain(list, found, fits);
    }
}

// Whether the pattern under the number generalizes the cell's term.
fn generalizes<I: Index>(index: &I, bank: &[Cell], cell: u16, number: u16) -> bool
    ensures { (S : Sig) → Rules S bank.now → cell < length bank.now → Decides result (Generalizes (I.Index.stored index.now) bank.now cell number) }
{
    match index.get(number) {
        Ok(pattern) => is_instance(&pattern, bank, cell),
        Err(_) => false,
    }
}
