ghost use Rattle.std.specs.Prelude.{◌≡◌, []};
ghost use Rattle.trie.specs.Contents.{strings_of, string_of, Inserted, Removed};

use super::Trie;
use super::links::{follow, next_at, relink};
use super::rooms::{Marks, give_back, spell};
use super::seek::seek;
use terms::pattern::Pattern;

// How many rows a tree may hold.
const MOST: usize = 64;

impl Trie {
    pub fn clear(&mut self)
        ensures { strings_of self.new ≡ [] }
    {
        self.marks = Marks::EMPTY;
        self.len = 0;
    }

    // Adds the pattern's row with its number, unless it is there or 64 rows are; whether it did, as of a set.
    pub fn insert(&mut self, pattern: &Pattern, number: u16) -> bool
        ensures { Inserted (strings_of self.old) (string_of pattern.now number) (strings_of self.new) result }
    {
        if self.len >= MOST {
            return false;
        }
        let row = pattern.nodes();
        let Err(gap) = seek(&self.nodes, self.marks.root, row, number) else {
            return false;
        };
        let first = spell(&mut self.nodes, &mut self.marks, row, number, gap.at);
        relink(&mut self.nodes, &mut self.marks, gap.link, first);
        self.len += 1;
        true
    }

    // Takes the pattern's row with its number out, and gives its nodes back; whether it was there, as of a set.
    pub fn remove(&mut self, pattern: &Pattern, number: u16) -> bool
        ensures { Removed (strings_of self.old) (string_of pattern.now number) (strings_of self.new) result }
    {
        let Ok(cut) = seek(&self.nodes, self.marks.root, pattern.nodes(), number) else {
            return false;
        };
        let first = follow(&self.nodes, self.marks.root, cut);
        let next = next_at(&self.nodes, first);
        relink(&mut self.nodes, &mut self.marks, cut, next);
        give_back(&mut self.nodes, &mut self.marks, first);
        self.len -= 1;
        true
    }
}
