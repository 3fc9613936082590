use crate::{text_of, write_sides};
use bank::cell::Cell;
use formula::reading::read_formula;
use lent_list::Count;
use signature::signature::Signature;
use std::test::Fail;

static SYMBOLS: &[u8] = b"a\t0\t1\nf\t2\t1\n";

#[test]
fn writes_both_sides(rt: HostRuntime) -> Result<(), Fail> {
    let signature = Signature::read(SYMBOLS)?;
    let equation = read_formula(&signature, b"cnf(e,axiom,f(Y,a)=Y).")?;
    let Ok(sides) = write_sides(rt.alloc(), &signature, &equation) else {
        return Err(Fail::new("not written"));
    };
    assert!(rt; sides.left.as_slice() == b"f(X0,a)".as_slice());
    assert!(rt; sides.right.as_slice() == b"X0".as_slice());
    assert_eq!(rt; sides.cells, 3);
    Ok(())
}

#[test]
fn writes_a_cell(rt: HostRuntime) -> Result<(), Fail> {
    let signature = Signature::read(SYMBOLS)?;
    let cells = [
        Cell::Var(4),
        Cell::App {
            symbol: 1,
            arity: 2,
            args: [0, 0, 0, 0],
        },
    ];
    let count = Count { len: 2 };
    let Ok(text) = text_of(rt.alloc(), &signature, &cells, &count, 1) else {
        return Err(Fail::new("not written"));
    };
    assert!(rt; text.as_slice() == b"f(X4,X4)".as_slice());
    assert!(rt; text_of(rt.alloc(), &signature, &cells, &count, 2).is_err());
    Ok(())
}
