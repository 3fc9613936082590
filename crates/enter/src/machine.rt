// A term's nodes in preorder into the bank, with a row of waiting symbols in place of recursion.
ghost use Rattle.std.specs.Prelude.{◌≡◌, ◌+◌, ◌<◌, ◌≤◌, List, Option, ℕ, true, ◌∷◌, length, take, Some};
ghost use Rattle.terms.specs.Term.{Terms, width};
ghost use Rattle.terms.specs.Preorder.{Whole, Small, in_front, small};
ghost use Rattle.row.specs.Items.{items};
ghost use Rattle.enter.specs.Machine.{Turned, Sound, Waiting, Grew, Gives, fresh, given, wanted, opens, onward, forest, whole};

use crate::note::{put, variable};
use bank::cell::Cell;
use lent_list::Count;
use row::Row;
use std::ops::ControlFlow;
use terms::pattern::Node;

// A symbol that waits for arguments, with those that it has. The slots are a cell's: all four, those not in use 0.
#[derive(Clone, Copy)]
pub struct Open {
    pub symbol: u8,
    pub arity: u8,
    pub args: [u16; 4],
    pub have: u8,
}

impl Open {
    fn new(symbol: u8, arity: u8) -> Open
        ensures { result ≡ fresh symbol arity }
    {
        Open {
            symbol,
            arity,
            args: [0; 4],
            have: 0,
        }
    }

    // The same with one more argument.
    fn with(self, cell: u16) -> Open
        requires { self.have < 4 }
        ensures { result ≡ given self cell }
    {
        let mut args = self.args;
        args[usize::from(self.have)] = cell;
        Open {
            args,
            have: self.have + 1,
            ..self
        }
    }
}

// The nodes' term, each variable standing for what it is bound to.
pub fn run(
    nodes: &[Node],
    bindings: &[Option<u16>],
    cells: &mut [Cell],
    count: &mut Count,
) -> Option<u16>
    requires counted { count.old.len ≤ length cells.old }
    requires few { length cells.old ≤ 2048 }
    requires short { length nodes.now ≤ 32 }
    requires one { Whole nodes.now }
    requires small { Small nodes.now }
    ensures gives { Gives (whole (length cells.old) bindings.now (forest nodes.now 0) (take count.old.len cells.old)) result cells.new count.new.len }
    ensures grew { Grew cells.old count.old.len cells.new count.new.len }
{
    let mut waiting = Row::new(Open::new(0, 0));
    for node in nodes {
        if let ControlFlow::Break(cell) = take_node(*node, bindings, cells, count, &mut waiting)? {
            return Some(cell);
        }
    }
    None
}

// Takes the next node: a variable is an argument that is there, and a symbol wants its own. Ends with the cell of the whole term.
fn take_node(
    node: Node,
    bindings: &[Option<u16>],
    cells: &mut [Cell],
    count: &mut Count,
    waiting: &mut Row<Open, 32>,
) -> Option<ControlFlow<u16>>
    requires counted { count.old.len ≤ length cells.old }
    requires few { length cells.old ≤ 2048 }
    requires small { small node ≡ true }
    requires waits { Waiting (opens waiting.old) }
    requires room { length (items waiting.old) < 32 }
    ensures turned { (ts us : Terms) → in_front node (Some us) ≡ Some ts → width ts ≡ wanted (opens waiting.old) → Turned (onward (length cells.old) bindings.now (opens waiting.old) ts (take count.old.len cells.old)) bindings.now (opens waiting.new) us cells.new count.new.len result }
    ensures deeper { length (items waiting.new) ≤ length (items waiting.old) + 1 }
    ensures grew { Grew cells.old count.old.len cells.new count.new.len }
{
    match node {
        Node::Var(x) => {
            let cell = variable(cells, count, bindings, x)?;
            match waiting.pop() {
                Some(open) => settle(open.with(cell), cells, count, waiting),
                None => Some(ControlFlow::Break(cell)),
            }
        }
        Node::App { symbol, arity } => settle(Open::new(symbol, arity), cells, count, waiting),
    }
}

// A symbol that has all its arguments is entered, and is the next argument of the one that waits; one that has not waits.
fn settle(
    first: Open,
    cells: &mut [Cell],
    count: &mut Count,
    waiting: &mut Row<Open, 32>,
) -> Option<ControlFlow<u16>>
    requires counted { count.old.len ≤ length cells.old }
    requires few { length cells.old ≤ 2048 }
    requires sound { Sound (first ∷ opens waiting.old) }
    requires room { length (items waiting.old) < 32 }
    ensures turned { (bindings : List (Option ℕ)) (ts : Terms) → width ts ≡ wanted (first ∷ opens waiting.old) → Turned (onward (length cells.old) bindings (first ∷ opens waiting.old) ts (take count.old.len cells.old)) bindings (opens waiting.new) ts cells.new count.new.len result }
    ensures deeper { length (items waiting.new) ≤ length (items waiting.old) + 1 }
    ensures grew { Grew cells.old count.old.len cells.new count.new.len }
{
    let mut open = first;
    while open.have == open.arity {
        let Open {
            symbol,
            arity,
            args,
            ..
        } = open;
        let cell = put(
            cells,
            count,
            Cell::App {
                symbol,
                arity,
                args,
            },
        )?;
        match waiting.pop() {
            Some(next) => open = next.with(cell),
            None => return Some(ControlFlow::Break(cell)),
        }
    }
    waiting.push(open).ok()?;
    Some(ControlFlow::Continue(()))
}
