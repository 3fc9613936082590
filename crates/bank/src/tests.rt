use crate::cell::Cell;
use crate::rules::keeps_rules;
use lent_list::Count;
use refusal::Refusal;
use signature::signature::Signature;
use std::test::Fail;

// Whether a variable, a constant and this cell are a bank.
fn holds(third: Cell, len: usize) -> Result<bool, Refusal> {
    let signature = Signature::read(b"a\t0\t1\nf\t2\t1\n")?;
    let cells = [
        Cell::Var(31),
        Cell::App {
            symbol: 0,
            arity: 0,
            args: [0; 4],
        },
        third,
    ];
    Ok(keeps_rules(&signature, &cells, &Count { len }).is_ok())
}

fn node(symbol: u8, arity: u8, args: [u16; 4]) -> Cell {
    Cell::App {
        symbol,
        arity,
        args,
    }
}

#[test]
fn kept(rt: HostRuntime) -> Result<(), Fail> {
    assert!(rt; holds(Cell::Var(30), 3)?);
    assert!(rt; holds(node(1, 2, [1, 0, 0, 0]), 3)?);
    assert!(rt; holds(node(9, 9, [9, 9, 9, 9]), 2)?);
    Ok(())
}

#[test]
fn broken(rt: HostRuntime) -> Result<(), Fail> {
    assert!(rt; !holds(Cell::Var(32), 3)?);
    assert!(rt; !holds(Cell::Var(31), 3)?);
    assert!(rt; !holds(node(1, 2, [2, 0, 0, 0]), 3)?);
    assert!(rt; !holds(node(1, 1, [0, 0, 0, 0]), 3)?);
    assert!(rt; !holds(node(2, 0, [0, 0, 0, 0]), 3)?);
    assert!(rt; !holds(node(1, 2, [0, 0, 0, 1]), 3)?);
    assert!(rt; !holds(Cell::Var(30), 4)?);
    Ok(())
}
