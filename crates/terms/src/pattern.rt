// A pattern: a term of at most 32 cells, as the row of its nodes in preorder.
ghost use Rattle.row.specs.Items.{items};
ghost use Rattle.terms.specs.Preorder.{Whole, Small};

use row::Row;

mod methods;

// One occurrence of a variable, or of a symbol with the number of its arguments.
#[derive(Clone, Copy, PartialEq, Eq, Debug)]
pub enum Node {
    Var(u8),
    App { symbol: u8, arity: u8 },
}

// A pattern carries its symbols' numbers and arities: whether they are a signature's is asked elsewhere.
#[derive(Clone, Copy)]
pub struct Pattern {
    nodes: Row<Node, 32>,
    ghost whole: { Whole (items nodes) },
    ghost within: { Small (items nodes) },
}
