ghost use Rattle.std.specs.Prelude.{◌≡◌, ◌<◌, ◌≤◌, [], length, MatchOption, slice_index_or};
ghost use Rattle.trie.specs.Trees.{blank};
ghost use Rattle.trie.specs.Contents.{strings_of};

use super::Trie;
use super::rooms::Marks;
use crate::branch::{Branch, Label};

impl Trie {
    pub fn new() -> Trie
        ensures { strings_of result ≡ [] }
    {
        Trie {
            nodes: [Branch {
                label: Label::Star,
                down: None,
                right: None,
            }; 2112],
            marks: Marks::EMPTY,
            len: 0,
        }
    }

    // How many rows there are.
    pub fn len(&self) -> usize
        ensures { result ≡ length (strings_of self.now) }
    {
        self.len
    }

    // The first of the nodes that may stand first in a row.
    pub fn root(&self) -> Option<u16>
        ensures { result ≡ self.now.marks.root }
    {
        self.marks.root
    }

    // The node at a place of the pool.
    pub fn branch(&self, place: u16) -> Option<Branch>
        ensures { MatchOption result (length self.now.nodes ≤ place) (λ b. (place < length self.now.nodes) × (b ≡ slice_index_or self.now.nodes place blank)) }
    {
        self.nodes.get(place as usize).copied()
    }
}
