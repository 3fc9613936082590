// The tree in its pool.
ghost use Rattle.std.specs.Prelude.{◌≡◌, ◌≤◌, true, length};
ghost use Rattle.trie.specs.Pools.{is_sound, spelled};
ghost use Rattle.trie.specs.Trees.{strings};

use crate::branch::Branch;
use rooms::Marks;

mod changes;
mod links;
mod methods;
mod rooms;
mod seek;

// 64 rows of 32 labels and a number each have at most 2,112 nodes. Nodes name each other by their places in the pool, since an
// index takes no memory; places that were given back are a chain over `right`.
#[derive(Drop)]
pub struct Trie {
    nodes: [Branch; 2112],
    marks: Marks,
    len: usize,
    ghost room: { length nodes ≡ 2112 },
    ghost sound: { is_sound nodes marks.root marks.free marks.used ≡ true },
    ghost counted: { length (strings (spelled nodes marks.root)) ≡ len },
    ghost few: { len ≤ 64 },
}
