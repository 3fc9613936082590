ghost use Rattle.std.specs.Prelude.{List, []};
ghost use Rattle.terms.specs.declared.pattern.Pattern.{Pattern};
ghost use Rattle.index.specs.Maps.{Told};
ghost use Rattle.offers.specs.Numbered.{Kept, Added, in_list};

use super::Patterns;
use discrimination_tree::DiscriminationTree;
use filter::Filter;
use index::index::Index;
use plain_list::PlainList;
use refusal::Refusal;
use terms::pattern::Pattern;

impl Patterns {
    pub fn new() -> Patterns
        ensures { Kept result [] }
    {
        Patterns {
            tree: Filter::over(DiscriminationTree::new()),
            list: PlainList::new(),
            last: 0,
        }
    }

    // Under the next number, if the tree has room; whether it has.
    pub fn add(&mut self, pattern: &Pattern) -> bool
        ensures { (ps : List Pattern) → Kept self.old ps → Added ps pattern.now self.new result }
    {
        if self.last >= 64 {
            return false;
        }
        self.last += 1;
        let _ = self.tree.insert(self.last, pattern);
        let _ = self.list.insert(self.last, pattern);
        true
    }

    pub fn get(&self, number: u16) -> Result<Pattern, Refusal>
        ensures { Told (in_list self.now) number result }
    {
        self.list.get(number)
    }
}
