// Where the place of a node is written: at the root, or in another node.
ghost use Rattle.std.specs.Prelude.{◌≡◌, length};
ghost use Rattle.trie.specs.Taken.{Within};
ghost use Rattle.trie.specs.Ways.{Inside, reads, next_at, nodes_with, marks_with};

use super::rooms::Marks;
use crate::branch::Branch;

#[derive(Clone, Copy)]
pub enum Link {
    Root,
    Down(u16),
    Right(u16),
}

pub fn follow(nodes: &[Branch], root: Option<u16>, link: Link) -> Option<u16>
    requires { Inside (length nodes.now) link }
    ensures { result ≡ reads nodes.now root link }
{
    match link {
        Link::Root => root,
        Link::Down(v) => nodes[v as usize].down,
        Link::Right(v) => nodes[v as usize].right,
    }
}

// The next node right of the one at the place.
pub fn next_at(nodes: &[Branch], place: Option<u16>) -> Option<u16>
    requires { Within (length nodes.now) place }
    ensures { result ≡ next_at nodes.now place }
{
    nodes[place? as usize].right
}

pub fn relink(nodes: &mut [Branch], marks: &mut Marks, link: Link, to: Option<u16>)
    requires { Inside (length nodes.old) link }
    ensures nodes { nodes.new ≡ nodes_with nodes.old link to }
    ensures marks { marks.new ≡ marks_with marks.old link to }
{
    match link {
        Link::Root => marks.root = to,
        Link::Down(v) => nodes[v as usize].down = to,
        Link::Right(v) => nodes[v as usize].right = to,
    }
}
