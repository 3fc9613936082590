use crate::trie::Trie;
use std::test::Fail;
use terms::pattern::{Node, Pattern};

// A row of 32 symbols that begins with the given one.
fn long(first: u8) -> Option<Pattern> {
    let mut nodes = [Node::App {
        symbol: 1,
        arity: 1,
    }; 32];
    nodes[0] = Node::App {
        symbol: first,
        arity: 1,
    };
    nodes[31] = Node::Var(first % 16);
    Pattern::new(&nodes)
}

fn insert_all(trie: &mut Trie, number: u16) {
    for pattern in (0..64).filter_map(long) {
        let _ = trie.insert(&pattern, number);
    }
}

fn remove_all(trie: &mut Trie, number: u16) {
    for pattern in (0..64).rev().filter_map(long) {
        let _ = trie.remove(&pattern, number);
    }
}

#[test]
fn gives_every_node_back(rt: HostRuntime) -> Result<(), Fail> {
    let mut trie = Trie::new();
    insert_all(&mut trie, 7);
    assert_eq!(rt; trie.len(), 64);
    let pattern = long(5).ok_or("no pattern")?;
    assert!(rt; !trie.insert(&pattern, 8));
    remove_all(&mut trie, 7);
    assert_eq!(rt; trie.len(), 0);
    assert!(rt; trie.root().is_none());
    insert_all(&mut trie, 8);
    assert_eq!(rt; trie.len(), 64);
    assert!(rt; trie.remove(&pattern, 8));
    assert!(rt; !trie.remove(&pattern, 8));
    assert!(rt; trie.insert(&pattern, 9));
    trie.clear();
    assert_eq!(rt; trie.len(), 0);
    insert_all(&mut trie, 9);
    assert_eq!(rt; trie.len(), 64);
    Ok(())
}

#[test]
fn shares_beginnings(rt: HostRuntime) -> Result<(), Fail> {
    let long = long(0).ok_or("no pattern")?;
    let short = Pattern::variable(3).ok_or("no pattern")?;
    let mut trie = Trie::new();
    assert!(rt; trie.insert(&long, 1));
    assert!(rt; trie.insert(&long, 2));
    assert!(rt; !trie.insert(&long, 1));
    assert!(rt; trie.insert(&short, 1));
    assert!(rt; trie.remove(&long, 1));
    assert!(rt; !trie.remove(&long, 1));
    assert!(rt; trie.remove(&long, 2));
    assert!(rt; trie.remove(&short, 1));
    assert!(rt; trie.root().is_none());
    Ok(())
}
