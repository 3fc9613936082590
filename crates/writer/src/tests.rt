use crate::write_term;
use bank::cell::Cell;
use lent_list::Count;
use refusal::Refusal;
use signature::signature::Signature;
use std::test::Fail;

// f(X13,a), once as an argument and twice shared.
fn cells() -> [Cell; 4] {
    [
        Cell::Var(13),
        Cell::App {
            symbol: 0,
            arity: 0,
            args: [0; 4],
        },
        Cell::App {
            symbol: 1,
            arity: 2,
            args: [0, 1, 0, 0],
        },
        Cell::App {
            symbol: 1,
            arity: 2,
            args: [2, 2, 0, 0],
        },
    ]
}

fn is_text(cell: u16, expected: &[u8]) -> Result<bool, Refusal> {
    let signature = Signature::read(b"a\t0\t1\nf\t2\t1\n")?;
    let mut buffer = [b'.'; 24];
    let count = Count { len: 4 };
    let len = write_term(&signature, &cells(), &count, cell, &mut buffer)?;
    Ok(&buffer[..len] == expected)
}

#[test]
fn writes_terms(rt: HostRuntime) -> Result<(), Fail> {
    assert!(rt; is_text(0, b"X13")?);
    assert!(rt; is_text(1, b"a")?);
    assert!(rt; is_text(2, b"f(X13,a)")?);
    assert!(rt; is_text(3, b"f(f(X13,a),f(X13,a))")?);
    Ok(())
}

fn refused(cell: u16, count: usize, room: usize) -> Option<Refusal> {
    let signature = Signature::read(b"a\t0\t1\nf\t2\t1\n").ok()?;
    let mut buffer = [b'.'; 24];
    let count = Count { len: count };
    write_term(&signature, &cells(), &count, cell, buffer.get_mut(..room)?).err()
}

#[test]
fn refuses(rt: HostRuntime) {
    assert!(rt; refused(3, 4, 19) == Some(Refusal::BufferTooShort));
    assert!(rt; refused(3, 4, 20).is_none());
    assert!(rt; refused(3, 3, 24) == Some(Refusal::BankRules));
    assert!(rt; refused(0, 5, 24) == Some(Refusal::BankRules));
}
