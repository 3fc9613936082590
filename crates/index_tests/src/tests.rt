use bank::cell::Cell;
use discrimination_tree::DiscriminationTree;
use filter::Filter;
use index::agree::agree;
use index::exact::ExactIndex;
use index::index::Index;
use lent_list::Count;
use plain_list::PlainList;
use refusal::Refusal;
use signature::signature::Signature;
use std::process::Abort;
use std::test::Fail;
use terms::pattern::{Node, Pattern};

static ARITHMETIC: &[u8] = b"zero\t0\t1\ns\t1\t1\nadd\t2\t1\n";

const ZERO: Node = Node::App {
    symbol: 0,
    arity: 0,
};

const SUCC: Node = Node::App {
    symbol: 1,
    arity: 1,
};

const ADD: Node = Node::App {
    symbol: 2,
    arity: 2,
};

const X: Node = Node::Var(0);

const Y: Node = Node::Var(1);

// Stands in matching too: a crate for two short helpers would be more than they are.
fn app(symbol: u8, arity: u8, first: u16, second: u16) -> Cell {
    Cell::App {
        symbol,
        arity,
        args: [first, second, 0, 0],
    }
}

// X20, zero, s(zero), add(zero,s(zero)), add(s(zero),s(zero)), add(add(zero,s(zero)),X20)
fn cells() -> [Cell; 6] {
    [
        Cell::Var(20),
        app(0, 0, 0, 0),
        app(1, 1, 1, 0),
        app(2, 2, 1, 2),
        app(2, 2, 2, 2),
        app(2, 2, 3, 0),
    ]
}

// Filled, overflowed, emptied in part and filled again.
fn exercise<I: Index>(rt: &impl Abort, index: &mut I) -> Result<(), Fail> {
    let pattern = Pattern::variable(0).ok_or("no pattern")?;
    let capacity = I::CAPACITY.min(128) as u16;
    for n in 0..capacity {
        assert_eq!(rt; index.insert(n, &pattern), Ok(()));
    }
    assert_eq!(rt;
        index.insert(capacity, &pattern),
        Err(Refusal::CapacityReached)
    );
    assert_eq!(rt; index.insert(0, &pattern), Err(Refusal::NumberTaken));
    assert_eq!(rt; index.remove(0), Ok(()));
    assert_eq!(rt; index.remove(0), Err(Refusal::NumberAbsent));
    assert!(rt; index.get(0).is_err());
    assert_eq!(rt; index.insert(capacity, &pattern), Ok(()));
    assert!(rt; index.get(capacity).is_ok());
    assert_eq!(rt; index.insert(0, &pattern), Err(Refusal::CapacityReached));
    index.clear();
    assert!(rt; index.get(capacity).is_err());
    assert_eq!(rt; index.insert(0, &pattern), Ok(()));
    Ok(())
}

fn store<I: Index>(index: &mut I, number: u16, nodes: &[Node]) -> bool {
    Pattern::new(nodes).is_some_and(|pattern| index.insert(number, &pattern).is_ok())
}

// Whether these numbers and no others are found for the cell.
fn finds<I: ExactIndex>(index: &I, cell: u16, expected: &[u16]) -> bool {
    let Ok(signature) = Signature::read(ARITHMETIC) else {
        return false;
    };
    let mut list = [0; 128];
    let mut found = Count { len: 0 };
    let count = Count { len: 6 };
    let asked = index.generalizations(&signature, &cells(), &count, cell, &mut list, &mut found);
    if asked.is_err() || found.len > 128 || found.len != expected.len() {
        return false;
    }
    let numbers = &list[..found.len];
    expected.iter().all(|number| numbers.contains(number))
}

// Patterns of every shape, asked about every cell.
fn answers<I: ExactIndex>(rt: &impl Abort, index: &mut I) {
    assert!(rt; store(index, 9, &[X]));
    assert!(rt; store(index, 2, &[ZERO]));
    assert!(rt; store(index, 300, &[ADD, X, X]));
    assert!(rt; store(index, 4, &[ADD, X, SUCC, Y]));
    assert!(rt; store(index, 5, &[ADD, ADD, ZERO, X, Y]));
    assert!(rt; finds(index, 0, &[9]));
    assert!(rt; finds(index, 1, &[2, 9]));
    assert!(rt; finds(index, 2, &[9]));
    assert!(rt; finds(index, 3, &[4, 9]));
    assert!(rt; finds(index, 4, &[4, 9, 300]));
    assert!(rt; finds(index, 5, &[5, 9]));
    assert_eq!(rt; index.remove(9), Ok(()));
    assert!(rt; finds(index, 0, &[]));
    assert!(rt; finds(index, 4, &[4, 300]));
}

// What the question is refused with, if the list and its count stay as they were.
fn refusal<I: Index>(
    index: &I,
    cells: &[Cell],
    count: usize,
    cell: u16,
    room: usize,
) -> Option<Refusal> {
    let signature = Signature::read(ARITHMETIC).ok()?;
    if room > 128 {
        return None;
    }
    let mut list = [7; 128];
    let mut found = Count { len: 3 };
    let answer = index.candidates(
        &signature,
        cells,
        &Count { len: count },
        cell,
        &mut list[..room],
        &mut found,
    );
    if found.len != 3 || list[0] != 7 || list[127] != 7 {
        return None;
    }
    answer.err()
}

// The limits before the bank's rules, and those before the cell.
fn refuses<I: Index>(rt: &impl Abort, index: &I) {
    let cells = cells();
    let broken = [app(1, 1, 0, 0)];
    let large = [Cell::Var(0); 2049];
    assert_eq!(rt; refusal(index, &[], 0, 0, 128), Some(Refusal::Limits));
    assert_eq!(rt; refusal(index, &large, 1, 0, 128), Some(Refusal::Limits));
    assert_eq!(rt;
        refusal(index, &broken, 1, 0, I::CAPACITY.saturating_sub(1)),
        Some(Refusal::Limits)
    );
    assert_eq!(rt;
        refusal(index, &broken, 1, 0, 128),
        Some(Refusal::BankRules)
    );
    assert_eq!(rt; refusal(index, &cells, 7, 0, 128), Some(Refusal::BankRules));
    assert_eq!(rt; refusal(index, &cells, 6, 6, 128), Some(Refusal::BankRules));
}

// All that an exact index is asked.
fn serves<I: ExactIndex + Drop>(rt: &impl Abort, mut index: I) -> Result<(), Fail> {
    refuses(rt, &index);
    exercise(rt, &mut index)?;
    index.clear();
    answers(rt, &mut index);
    Ok(())
}

#[test]
fn plain_list(rt: HostRuntime) -> Result<(), Fail> {
    serves(&rt, PlainList::new())
}

#[test]
fn filtered_list(rt: HostRuntime) -> Result<(), Fail> {
    serves(&rt, Filter::over(PlainList::new()))
}

#[test]
fn discrimination_tree(rt: HostRuntime) -> Result<(), Fail> {
    let mut index = DiscriminationTree::new();
    refuses(&rt, &index);
    exercise(&rt, &mut index)
}

#[test]
fn filtered_tree(rt: HostRuntime) -> Result<(), Fail> {
    serves(&rt, Filter::over(DiscriminationTree::new()))
}

// The two agree where they store the same.
#[test]
fn agreement(rt: HostRuntime) -> Result<(), Fail> {
    let signature = Signature::read(ARITHMETIC)?;
    let count = Count { len: 6 };
    let mut one = PlainList::new();
    let mut other = Filter::over(DiscriminationTree::new());
    assert!(rt; store(&mut one, 1, &[ADD, X, X]));
    assert!(rt; !agree(&one, &other, &signature, &cells(), &count, 4)?);
    assert!(rt; agree(&one, &other, &signature, &cells(), &count, 3)?);
    assert!(rt; store(&mut other, 1, &[ADD, X, X]));
    assert!(rt; agree(&one, &other, &signature, &cells(), &count, 4)?);
    Ok(())
}
