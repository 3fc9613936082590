use crate::{is_instance, match_cell};
use bank::cell::Cell;
use terms::pattern::{Node, Pattern};

const ZERO: Node = Node::App {
    symbol: 0,
    arity: 0,
};

const SUCC: Node = Node::App {
    symbol: 1,
    arity: 1,
};

const ADD: Node = Node::App {
    symbol: 2,
    arity: 2,
};

const X: Node = Node::Var(0);

const Y: Node = Node::Var(15);

// Stands in index_tests too: a crate for two short helpers would be more than they are.
fn app(symbol: u8, arity: u8, first: u16, second: u16) -> Cell {
    Cell::App {
        symbol,
        arity,
        args: [first, second, 0, 0],
    }
}

// X20, zero, s(zero), add(zero,s(zero)), add(s(zero),s(zero)), add(add(zero,s(zero)),X20)
fn cells() -> [Cell; 6] {
    [
        Cell::Var(20),
        app(0, 0, 0, 0),
        app(1, 1, 1, 0),
        app(2, 2, 1, 2),
        app(2, 2, 2, 2),
        app(2, 2, 3, 0),
    ]
}

// The cells that X and Y are bound to.
fn bound(nodes: &[Node], cell: u16) -> Option<(Option<u16>, Option<u16>)> {
    let pattern = Pattern::new(nodes)?;
    let bindings = match_cell(&pattern, &cells(), cell)?;
    Some((bindings[0], bindings[15]))
}

fn fits(nodes: &[Node], cell: u16) -> bool {
    Pattern::new(nodes).is_some_and(|pattern| is_instance(&pattern, &cells(), cell))
}

#[test]
fn binds(rt: HostRuntime) {
    assert!(rt; bound(&[X], 0) == Some((Some(0), None)));
    assert!(rt; bound(&[ZERO], 1) == Some((None, None)));
    assert!(rt; bound(&[ADD, X, Y], 3) == Some((Some(1), Some(2))));
    assert!(rt; bound(&[ADD, X, X], 4) == Some((Some(2), None)));
    assert!(rt; bound(&[ADD, ADD, Y, SUCC, Y, X], 5) == Some((Some(0), Some(1))));
}

#[test]
fn refuses(rt: HostRuntime) {
    assert!(rt; fits(&[ADD, X, X], 4));
    assert!(rt; !fits(&[ADD, X, X], 3));
    assert!(rt; !fits(&[ZERO], 0));
    assert!(rt; !fits(&[SUCC, X], 1));
    assert!(rt; !fits(&[ADD, ADD, X, SUCC, Y, X], 5));
    assert!(rt; !fits(&[X], 6));
}
