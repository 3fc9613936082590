// A row's way through the tree.
ghost use Rattle.std.specs.Prelude.{◌≡◌, ◌<◌, ◌≤◌, length, slice_index_or};
ghost use Rattle.trie.specs.declared.branch.Label.TheVariants.{Star};
ghost use Rattle.trie.specs.Pools.{spelled};
ghost use Rattle.trie.specs.Contents.{labels};
ghost use Rattle.trie.specs.Ways.{Stands, Seeks, chosen};

use super::links::{Link, follow};
use crate::branch::{Branch, Label};
use terms::pattern::Node;

// Where a row that is not there would go on, and from which of its places.
#[derive(Clone, Copy)]
pub struct Gap {
    pub link: Link,
    pub at: usize,
}

// The label at a place of the row: a node's, or the number at the end.
pub fn label_at(row: &[Node], number: u16, at: usize) -> Label
    requires { at ≤ length row.now }
    ensures { result ≡ slice_index_or (labels row.now number) at Star }
{
    row.get(at)
        .map_or(Label::Number(number), |node| Label::from(*node))
}

fn cut_at(link: Link, right: Option<u16>, cut: Link) -> Link
    ensures { result ≡ chosen link right cut }
{
    match (link, right) {
        (Link::Down(_), None) => cut,
        _ => link,
    }
}

// The link to cut a row off at that is there, below which no other row goes; or where one goes on that is not.
pub fn seek(nodes: &[Branch], root: Option<u16>, row: &[Node], number: u16) -> Result<Link, Gap>
    requires { Stands nodes.now root (spelled nodes.now root) }
    ensures { Seeks (spelled nodes.now root) row.now number result }
{
    let mut link = Link::Root;
    let mut cut = Link::Root;
    // How many labels were met: a turn to the right meets none.
    let mut at = 0;
    while let Some(v) = follow(nodes, root, link) {
        let branch = nodes[v as usize];
        if branch.label == label_at(row, number, at) {
            cut = cut_at(link, branch.right, cut);
            if at == row.len() {
                return Ok(cut);
            }
            link = Link::Down(v);
            at += 1;
        } else {
            link = Link::Right(v);
        }
    }
    Err(Gap { link, at })
}
