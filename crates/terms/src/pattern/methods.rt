ghost use Rattle.std.specs.Prelude.{◌≡◌, ◌<◌, ◌≤◌, true, length, take, Decides, MatchOption};
ghost use Rattle.terms.specs.Term.{var};
ghost use Rattle.terms.specs.Preorder.{Fits, Walked, small, arguments};
ghost use Rattle.terms.specs.Patterns.{nodes_of, term_of};

use super::{Node, Pattern};
use row::Row;

impl Node {
    // Whether the node's numbers lie within a pattern's limits.
    pub fn is_small(&self) -> bool
        ensures { result ≡ small self.now }
    {
        match *self {
            Node::Var(x) => x < 16,
            Node::App { symbol, arity } => symbol < 64 && arity < 5,
        }
    }

    // How many arguments follow the node.
    pub fn arity(&self) -> usize
        ensures { result ≡ arguments self.now }
    {
        match *self {
            Node::Var(_) => 0,
            Node::App { arity, .. } => usize::from(arity),
        }
    }
}

impl Pattern {
    // The pattern of one variable.
    pub fn variable(x: u8) -> Option<Pattern>
        ensures { MatchOption result (16 ≤ x) (λ p. (x < 16) × (term_of p ≡ var x)) }
    {
        if x >= 16 {
            return None;
        }
        let nodes = Row::front([Node::Var(x); 32], 1);
        Some(Pattern { nodes })
    }

    pub fn len(&self) -> usize
        ensures { result ≡ length (nodes_of self.now) }
    {
        self.nodes.len()
    }

    // The nodes in preorder.
    pub fn nodes(&self) -> &[Node]
        ensures { result.now ≡ nodes_of self.now }
    {
        self.nodes.as_slice()
    }

    // The pattern of a row of nodes, if the row is the preorder of one term and keeps the limits.
    pub fn new(nodes: &[Node]) -> Option<Pattern>
        ensures { MatchOption result (Fits nodes.now → ⊥) (λ p. nodes_of p ≡ nodes.now) }
    {
        // Walked before they are copied: bytes that were just copied are slow to read one by one.
        if nodes.len() > 32 || walk(nodes)? != 1 {
            return None;
        }
        let row = Row::from_slice(nodes, Node::Var(0))?;
        Some(Pattern { nodes: row })
    }
}

// How many terms the row is the preorder of, one after another.
fn walk(nodes: &[Node]) -> Option<usize>
    ensures { Walked nodes.now result }
{
    let mut depth: usize = 0;
    for node in nodes.iter().rev() {
        if !node.is_small() {
            return None;
        }
        depth = depth.checked_sub(node.arity())? + 1;
    }
    Some(depth)
}
