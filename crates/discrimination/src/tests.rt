use crate::walk::walk;
use bank::cell::Cell;
use lent_list::Count;
use std::process::Abort;
use terms::pattern::{Node, Pattern};
use trie::trie::Trie;

fn node(symbol: u8, arity: u8) -> Node {
    Node::App { symbol, arity }
}

fn cell(symbol: u8, arity: u8, args: [u16; 4]) -> Cell {
    Cell::App {
        symbol,
        arity,
        args,
    }
}

fn add(trie: &mut Trie, number: u16, nodes: &[Node]) {
    if let Some(pattern) = Pattern::new(nodes) {
        let _ = trie.insert(&pattern, number);
    }
}

// f(X0,X0) under 1, f(a,X3) under 2, f(X0,g(a)) under 3, f(g(X0),b) under 4, g(X0) under 5, a under 6, X0 under 7
fn tree() -> Trie {
    let mut trie = Trie::new();
    add(&mut trie, 1, &[node(2, 2), Node::Var(0), Node::Var(0)]);
    add(&mut trie, 2, &[node(2, 2), node(0, 0), Node::Var(3)]);
    add(
        &mut trie,
        3,
        &[node(2, 2), Node::Var(0), node(3, 1), node(0, 0)],
    );
    add(
        &mut trie,
        4,
        &[node(2, 2), node(3, 1), Node::Var(0), node(1, 0)],
    );
    add(&mut trie, 5, &[node(3, 1), Node::Var(0)]);
    add(&mut trie, 6, &[node(0, 0)]);
    add(&mut trie, 7, &[Node::Var(0)]);
    trie
}

// a, b, g(a), f(a,g(a)), f(g(a),b), X2
fn cells() -> [Cell; 6] {
    [
        cell(0, 0, [0; 4]),
        cell(1, 0, [0; 4]),
        cell(3, 1, [0; 4]),
        cell(2, 2, [0, 2, 0, 0]),
        cell(2, 2, [2, 1, 0, 0]),
        Cell::Var(2),
    ]
}

fn finds(rt: &impl Abort, at: u16, numbers: &[u16]) {
    let trie = tree();
    let mut list = [0; 64];
    let mut found = Count { len: 9 };
    walk(&trie, &cells(), at, &mut list, &mut found);
    assert_eq!(rt; found.len, numbers.len());
    for (i, number) in numbers.iter().enumerate() {
        if i < 64 {
            assert_eq!(rt; list[i], *number);
        }
    }
}

#[test]
fn candidates(rt: HostRuntime) {
    finds(&rt, 0, &[6, 7]);
    finds(&rt, 1, &[7]);
    finds(&rt, 2, &[5, 7]);
    finds(&rt, 3, &[1, 3, 2, 7]);
    finds(&rt, 4, &[1, 4, 7]);
    finds(&rt, 5, &[7]);
}

#[test]
fn little_room(rt: HostRuntime) {
    let trie = tree();
    let mut list = [0; 2];
    let mut found = Count { len: 0 };
    walk(&trie, &cells(), 3, &mut list, &mut found);
    assert_eq!(rt; found.len, 2);
    assert_eq!(rt; list[0], 1);
    assert_eq!(rt; list[1], 3);
}
