// Places of the pool, taken and given back.
ghost use Rattle.std.specs.Prelude.{◌≡◌, ◌+◌, ◌-◌, ◌<◌, ◌≤◌, [], length, drop, None};
ghost use Rattle.trie.specs.Contents.{labels};
ghost use Rattle.trie.specs.Trees.{places};
ghost use Rattle.trie.specs.Pools.{Chained, down_of, spelled};
ghost use Rattle.trie.specs.Taken.{Kept, Spelt, Takes, Within, hanging};

use super::seek::label_at;
use crate::branch::Branch;
use terms::pattern::Node;

// Where the tree begins, the first of the places that were given back, and the first that was never taken.
#[derive(Clone, Copy)]
pub struct Marks {
    pub root: Option<u16>,
    pub free: Option<u16>,
    pub used: usize,
}

impl Marks {
    pub const EMPTY: Marks = Marks {
        root: None,
        free: None,
        used: 0,
    };
}

fn take(nodes: &[Branch], marks: &mut Marks) -> u16
    requires small { length nodes.now ≤ 2112 }
    requires inside { Within (length nodes.now) marks.old.free }
    requires room { marks.old.free ≡ None → marks.old.used < length nodes.now }
    ensures { Takes nodes.now marks.old marks.new result marks.old.free }
{
    match marks.free {
        Some(v) => {
            marks.free = nodes[v as usize].right;
            v
        }
        None => {
            let v = marks.used as u16;
            marks.used += 1;
            v
        }
    }
}

// Nodes for the labels of the row from a place on, each below the one before.
pub fn spell(
    nodes: &mut [Branch],
    marks: &mut Marks,
    row: &[Node],
    number: u16,
    at: usize,
) -> Option<u16>
    requires small { length nodes.old ≤ 2112 }
    requires kept { Kept nodes.old marks.old (spelled nodes.old marks.old.root) [] }
    requires within { at ≤ length row.now }
    requires room { length (places (spelled nodes.old marks.old.root)) + (length row.now + 1 - at) ≤ length nodes.old }
    ensures { Spelt nodes.new marks.new (spelled nodes.old marks.old.root) (drop at (labels row.now number)) result }
{
    let mut down = None;
    for i in (at..row.len() + 1).rev() {
        let v = take(nodes, marks);
        nodes[v as usize] = Branch {
            label: label_at(row, number, i),
            down,
            right: None,
        };
        down = Some(v);
    }
    down
}

// Gives back the node at the place and those below it.
pub fn give_back(nodes: &mut [Branch], marks: &mut Marks, from: Option<u16>)
    requires hangs { Chained down_of nodes.old from (hanging nodes.old from) }
    requires kept { Kept nodes.old marks.old (spelled nodes.old marks.old.root) (hanging nodes.old from) }
    ensures { Kept nodes.new marks.new (spelled nodes.old marks.old.root) [] }
{
    let mut at = from;
    while let Some(v) = at {
        at = nodes[v as usize].down;
        nodes[v as usize].right = marks.free;
        marks.free = Some(v);
    }
}
