// A session's file of equations: an index has the higher sides, and beside it stand the lower sides under the same numbers.
#![tactic(auto)]

ghost use Rattle.std.specs.Prelude.{◌≡◌, ℕ, length, None};
ghost use Rattle.index.specs.Maps.{Inserted, Removed};
ghost use Rattle.file.specs.Kept.{Kept, Free, equations};

use entries::Entries;
use index::index::Index;
use reduction::oriented::Oriented;
use refusal::Refusal;

#[derive(Drop)]
pub struct File<I> {
    index: I,
    lowers: Entries<128>,
}

impl<I: Index> File<I> {
    // Whatever the index had, the file has nothing.
    pub fn empty(mut index: I) -> File<I>
        ensures kept { Kept I.Index.stored result }
        ensures bare { (n : ℕ) → equations I.Index.stored result n ≡ None }
    {
        index.clear();
        File {
            index,
            lowers: Entries::new(),
        }
    }

    // A taken number is refused before a full index.
    pub fn check_free(&self, number: u16) -> Result<(), Refusal>
        ensures { Kept I.Index.stored self.now → Free (equations I.Index.stored self.now) (length (I.Index.numbers self.now.index)) I.Index.CAPACITY number result }
    {
        if self.lowers.get(number).is_ok() {
            return Err(Refusal::NumberTaken);
        }
        if self.lowers.len() >= I::CAPACITY {
            return Err(Refusal::CapacityReached);
        }
        Ok(())
    }

    pub fn insert(&mut self, number: u16, rule: &Oriented) -> Result<(), Refusal>
        ensures kept { Kept I.Index.stored self.old → Kept I.Index.stored self.new }
        ensures inserted { Kept I.Index.stored self.old → Inserted (equations I.Index.stored self.old) (length (I.Index.numbers self.old.index)) I.Index.CAPACITY number rule.now (equations I.Index.stored self.new) result }
    {
        self.index.insert(number, &rule.higher)?;
        self.lowers.insert(number, &rule.lower)
    }

    pub fn remove(&mut self, number: u16) -> Result<(), Refusal>
        ensures kept { Kept I.Index.stored self.old → Kept I.Index.stored self.new }
        ensures removed { Kept I.Index.stored self.old → Removed (equations I.Index.stored self.old) number (equations I.Index.stored self.new) result }
    {
        self.index.remove(number)?;
        self.lowers.remove(number)
    }

    pub fn index(&self) -> &I
        ensures { result.now ≡ self.now.index }
    {
        &self.index
    }

    pub fn lowers(&self) -> &Entries<128>
        ensures { result.now ≡ self.now.lowers }
    {
        &self.lowers
    }
}
