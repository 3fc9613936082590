// One node of a pattern against the next of the pending cells, which is the last in their row.
ghost use Rattle.std.specs.Prelude.{◌≡◌, ◌+◌, ◌<◌, ◌≤◌, true, length};
ghost use Rattle.terms.specs.Preorder.{small};
ghost use Rattle.row.specs.Items.{items};
ghost use Rattle.subterms.specs.Places.{arguments};
ghost use Rattle.matching.specs.Solving.{Met, Placed, pending as pend};

use bank::cell::Cell;
use row::Row;
use terms::pattern::Node;

// Takes the next cell, and puts its arguments' cells in its place; none where it is no instance of the node.
pub fn meet(
    node: Node,
    bank: &[Cell],
    pending: &mut Row<u16, 32>,
    bindings: &mut [Option<u16>],
) -> Option<()>
    requires fits { length (items pending.old) + arguments node ≤ 33 }
    requires slots { length bindings.old ≡ 16 }
    requires small { small node ≡ true }
    ensures { Met bank.now node bindings.old (pend pending.old) bindings.new (pend pending.new) result }
{
    let next = pending.pop()?;
    let cell = bank.get(usize::from(next))?;
    match node {
        Node::Var(x) => place(bindings, x, next),
        Node::App { symbol, arity } => {
            let args = cell.arguments(symbol, arity)?;
            pending.push_reversed(&args[..usize::from(arity)]).ok()
        }
    }
}

// Binds the variable to the cell, unless it is bound to another.
fn place(bindings: &mut [Option<u16>], x: u8, cell: u16) -> Option<()>
    requires { x < length bindings.old }
    ensures { Placed bindings.old x cell bindings.new result }
{
    match bindings[usize::from(x)] {
        Some(known) if known == cell => Some(()),
        Some(_) => None,
        None => {
            bindings[usize::from(x)] = Some(cell);
            Some(())
        }
    }
}
