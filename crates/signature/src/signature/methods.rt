ghost use Rattle.std.specs.Prelude.{◌≡◌, ℕ, ◌<◌, ◌≤◌, [], MatchOption, ◌≢◌, slice_index_or};
ghost use Rattle.signature.specs.Lines.{spelled};
ghost use Rattle.signature.specs.Signatures.{sig_of, names_of};

use super::Signature;
use crate::name::Name;
use crate::symbol::Symbol;

impl Signature {
    // How many symbols there are.
    pub fn count(&self) -> usize
        ensures { result ≡ (sig_of self.now).symbols }
    {
        self.symbols.len()
    }

    // The symbol of a number.
    fn symbol(&self, number: u8) -> Option<Symbol>
        ensures { MatchOption result ((sig_of self.now).symbols ≤ number) (λ y. (number < (sig_of self.now).symbols) × (y.arity ≡ (sig_of self.now).arity number) × (y.weight ≡ (sig_of self.now).weight number) × (spelled y.name ≡ slice_index_or (names_of self.now) number [])) }
    {
        self.symbols.as_slice().get(number as usize).copied()
    }

    // The arity of the symbol of a number.
    pub fn arity(&self, symbol: u8) -> Option<u8>
        ensures { MatchOption result ((sig_of self.now).symbols ≤ symbol) (λ a. (symbol < (sig_of self.now).symbols) × (a ≡ (sig_of self.now).arity symbol) × (a ≤ 4)) }
    {
        Some(self.symbol(symbol)?.arity)
    }

    // The weight of the symbol of a number.
    pub fn weight(&self, symbol: u8) -> Option<u8>
        ensures { MatchOption result ((sig_of self.now).symbols ≤ symbol) (λ w. (symbol < (sig_of self.now).symbols) × (w ≡ (sig_of self.now).weight symbol) × (1 ≤ w) × (w ≤ 100)) }
    {
        Some(self.symbol(symbol)?.weight)
    }

    // The name of the symbol of a number.
    pub fn name(&self, symbol: u8) -> Option<Name>
        ensures { MatchOption result ((sig_of self.now).symbols ≤ symbol) (λ n. (symbol < (sig_of self.now).symbols) × (spelled n ≡ slice_index_or (names_of self.now) symbol [])) }
    {
        Some(self.symbol(symbol)?.name)
    }

    // The number of the symbol of a name.
    pub fn find(&self, name: &[u8]) -> Option<u8>
        ensures { MatchOption result ((f : ℕ) → f < (sig_of self.now).symbols → slice_index_or (names_of self.now) f [] ≢ name.now) (λ f. (f < (sig_of self.now).symbols) × (slice_index_or (names_of self.now) f [] ≡ name.now)) }
    {
        let k = self
            .symbols
            .as_slice()
            .iter()
            .position(|symbol| symbol.name.bytes() == name)?;
        Some(k as u8)
    }
}
