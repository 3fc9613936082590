ghost use Rattle.std.specs.Prelude.{◌≡◌, ℕ, length, None};
ghost use Rattle.index.specs.Maps.{Inserted, Removed, Told};
ghost use Rattle.entries.specs.Lookup.{Placed};
ghost use Rattle.entries.specs.Stored.{entries_of, numbers_of, map_of};

use super::{Entries, Entry};
use refusal::Refusal;
use row::{Full, Row};
use terms::pattern::Pattern;

impl<const N: usize> Entries<N> {
    pub fn new() -> Entries<N>
        ensures { (n : ℕ) → map_of result n ≡ None }
    {
        let pattern = Pattern::variable(0).unwrap();
        Entries {
            entries: Row::new(Entry { number: 0, pattern }),
        }
    }

    pub fn len(&self) -> usize
        ensures { result ≡ length (numbers_of self.now) }
    {
        self.entries.len()
    }

    pub fn items(&self) -> &[Entry]
        ensures { result.now ≡ entries_of self.now }
    {
        self.entries.as_slice()
    }

    pub fn clear(&mut self)
        ensures { (n : ℕ) → map_of self.new n ≡ None }
    {
        self.entries.clear();
    }

    pub fn get(&self, number: u16) -> Result<Pattern, Refusal>
        ensures { Told (map_of self.now) number result }
    {
        let entries = self.items();
        let at = place(entries, number).ok_or(Refusal::NumberAbsent)?;
        Ok(entries[at].pattern)
    }

    pub fn insert(&mut self, number: u16, pattern: &Pattern) -> Result<(), Refusal>
        ensures { Inserted (map_of self.old) (length (numbers_of self.old)) N number pattern.now (map_of self.new) result }
    {
        let taken = place(self.items(), number).is_some();
        if taken {
            return Err(Refusal::NumberTaken);
        }
        let pattern = *pattern;
        match self.entries.push(Entry { number, pattern }) {
            Ok(()) => Ok(()),
            Err(Full) => Err(Refusal::CapacityReached),
        }
    }

    // The last entry takes the place that gets free.
    pub fn remove(&mut self, number: u16) -> Result<(), Refusal>
        ensures { Removed (map_of self.old) number (map_of self.new) result }
    {
        let at = place(self.items(), number).ok_or(Refusal::NumberAbsent)?;
        let _ = self.entries.swap_remove(at);
        Ok(())
    }
}

fn place(entries: &[Entry], number: u16) -> Option<usize>
    ensures { Placed entries.now number result }
{
    entries.iter().position(|entry| entry.number == number)
}
