// A node of the tree, as it lies in the pool.
ghost use Rattle.std.specs.Prelude.{◌≡◌};
ghost use Rattle.trie.specs.Contents.{label_of};

use terms::pattern::Node;

// What a node spells: a variable of any name, a symbol with its arity, or, at a row's end, the row's number.
#[derive(Clone, Copy, PartialEq, Eq, Debug)]
pub enum Label {
    Star,
    Symbol { symbol: u8, arity: u8 },
    Number(u16),
}

impl From<Node> for Label {
    ghost from_gives = { λ n l. l ≡ label_of n };

    fn from(node: Node) -> Label {
        match node {
            Node::Var(_) => Label::Star,
            Node::App { symbol, arity } => Label::Symbol { symbol, arity },
        }
    }
}

// `down` is the first of the nodes that may follow, `right` the next that may stand in this one's place.
#[derive(Clone, Copy)]
pub struct Branch {
    pub label: Label,
    pub down: Option<u16>,
    pub right: Option<u16>,
}
