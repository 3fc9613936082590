// Each refusal of adding, and where two would fit, the one that is looked at first.
use crate::sessions::{added, numbered, open_by};
use by_size::BySize;
use index::index::Index;
use kbo::KnuthBendix;
use order::ReductionOrder;
use refusal::Refusal;
use std::test::Fail;

// A number and a text, and the number of the refusal if there is one.
static CALLS: [(u32, &[u8], Result<(), u8>); 22] = [
    (2, b"cnf(e,axiom,s(X)=X).", Ok(())),
    (2, b"cnf(e,hypothesis,X=s(X)).", Ok(())),
    (30000, b"cnf(e,axiom,(f(X,Y)=s(X))).", Ok(())),
    (0, b"cnf(e,axiom,s(X)=X).", Err(5)),
    (30001, b"cnf(e,axiom,s(X)=X).", Err(5)),
    (65537, b"cnf(e,axiom,s(X)=X).", Err(5)),
    (2, b"cnf(e,axiom,s(X)=X)", Err(1)),
    (2, b"cnf(e,axiom,g(X)=X).", Err(2)),
    (
        2,
        b"cnf(e,axiom,s(s(s(s(s(s(s(s(s(s(s(s(s(s(s(s(s(s(s(s(s(s(s(s(s(s(s(s(s(s(s(s(X))))))))))))))))))))))))))))))))=X).",
        Err(3),
    ),
    (2, b"cnf(e,negated_conjecture,s(X)=X).", Err(4)),
    (2, b"cnf(e,lemma,s(X)=X).", Err(4)),
    (2, b"cnf(e,axiom,s(X)!=X).", Err(4)),
    (1, b"cnf(e,axiom,s(X)=X).", Err(6)),
    (2, b"cnf(e,axiom,f(X,Y)=f(Y,X)).", Err(8)),
    // 5 before 1
    (0, b"cnf(e,axiom,s(X)=X)", Err(5)),
    // 1 before 2
    (2, b"cnf(e,axiom,g(X)=X)", Err(1)),
    // 2 before 3
    (
        2,
        b"cnf(e,axiom,s(s(s(s(s(s(s(s(s(s(s(s(s(s(s(s(s(s(s(s(s(s(s(s(s(s(s(s(s(s(s(s(X))))))))))))))))))))))))))))))))=g(X)).",
        Err(2),
    ),
    // 3 before 4
    (
        2,
        b"cnf(e,lemma,s(s(s(s(s(s(s(s(s(s(s(s(s(s(s(s(s(s(s(s(s(s(s(s(s(s(s(s(s(s(s(s(X))))))))))))))))))))))))))))))))=X).",
        Err(3),
    ),
    // 4 before 6
    (1, b"cnf(e,lemma,s(X)=X).", Err(4)),
    // 4 before 8
    (2, b"cnf(e,axiom,z!=e).", Err(4)),
    // 6 before 8
    (1, b"cnf(e,axiom,z=e).", Err(6)),
    (2, b"cnf(e,axiom,z=e).", Err(8)),
];

#[test]
fn refusals(rt: HostRuntime) {
    for (number, text, answer) in CALLS {
        assert_eq!(rt; numbered(added(number, text)), Ok(answer));
    }
}

#[test]
fn long_texts(rt: HostRuntime) -> Result<(), Fail> {
    let mut text = vec![in rt.alloc(); b' '; 32_768]?;
    assert_eq!(rt; numbered(added(2, &text)), Ok(Err(1)));
    text.push(b' ')?;
    assert_eq!(rt; added(2, &text), Ok(Err(Refusal::Limits)));
    assert_eq!(rt; added(0, &text), Ok(Err(Refusal::NumberRange)));
    Ok(())
}

// How many cells the higher and the lower side have that adding has stored.
fn sides<O: ReductionOrder + Drop>(order: O, text: &[u8]) -> Result<(usize, usize), Refusal> {
    let mut session = open_by(order)?;
    session.add(5, text)?;
    let higher = session.file().index().get(5)?;
    let lower = session.file().lowers().get(5)?;
    Ok((higher.len(), lower.len()))
}

#[test]
fn either_side_higher(rt: HostRuntime) {
    assert_eq!(rt; sides(BySize, b"cnf(e,axiom,s(X)=X)."), Ok((2, 1)));
    assert_eq!(rt; sides(BySize, b"cnf(e,axiom,X=s(X))."), Ok((2, 1)));
    assert_eq!(rt;
        sides(KnuthBendix, b"cnf(e,axiom,f(z,X)=s(X))."),
        Ok((3, 2))
    );
    assert_eq!(rt;
        sides(KnuthBendix, b"cnf(e,axiom,s(X)=f(z,X))."),
        Ok((3, 2))
    );
    assert_eq!(rt;
        sides(BySize, b"cnf(e,axiom,z=e)."),
        Err(Refusal::Unordered)
    );
}
