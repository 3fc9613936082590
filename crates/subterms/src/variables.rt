// How often variables stand in rows of nodes.
ghost use Rattle.std.specs.Prelude.{◌≡◌, Decides};
ghost use Rattle.subterms.specs.Variables.{occurring, covered, CoversRow};

use terms::pattern::Node;

// Whether no variable stands oftener in t than in s.
pub fn covers(s: &[Node], t: &[Node]) -> bool
    ensures { Decides result (CoversRow s.now t.now) }
{
    t.iter().all(|node| is_covered(s, t, *node))
}

fn is_covered(s: &[Node], t: &[Node], node: Node) -> bool
    ensures { result ≡ covered s.now t.now node }
{
    match node {
        Node::Var(x) => occurrences(t, x) <= occurrences(s, x),
        Node::App { .. } => true,
    }
}

fn occurrences(row: &[Node], x: u8) -> usize
    ensures { result ≡ occurring x row.now }
{
    // One loop over copies, which is compiled without branches; `filter` and `count` made the Knuth-Bendix order half as slow again.
    let mut n = 0;
    for node in row {
        let node = *node;
        if node == Node::Var(x) {
            n += 1;
        }
    }
    n
}
