// The discrimination tree: an index whose patterns share what they begin with.
#![tactic(auto)]

ghost use Rattle.entries.specs.Stored.{map_of};
ghost use Rattle.trie.specs.Contents.{strings_of};
ghost use Rattle.discrimination_tree.specs.Rows.{Tied};

use entries::Entries;
use trie::trie::Trie;

mod methods;

// The tree has the rows of the stored patterns and no others.
#[derive(Drop)]
pub struct DiscriminationTree {
    entries: Entries<64>,
    trie: Trie,
    ghost tied: { Tied (map_of entries) (strings_of trie) },
}
