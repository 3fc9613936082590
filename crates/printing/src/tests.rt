use crate::{or_refusal, sides_of};
use formula::reading::read_formula;
use refusal::Refusal;
use sides::Fault;
use signature::signature::Signature;
use std::test::Fail;

#[test]
fn both_sides_are_there(rt: HostRuntime) -> Result<(), Fail> {
    let signature = Signature::read(b"a\t0\t1\nf\t2\t1\n")?;
    let equation = read_formula(&signature, b"cnf(e,axiom,f(Y,a)=Y).")?;
    let Ok(Some(sides)) = sides_of(&rt, &signature, &equation) else {
        return Err(Fail::new("not written"));
    };
    assert!(rt; sides.left.as_slice() == b"f(X0,a)".as_slice());
    assert!(rt; sides.right.as_slice() == b"X0".as_slice());
    Ok(())
}

#[test]
fn a_refusal_leaves_nothing(rt: HostRuntime) {
    let refused: Result<u8, Fault> = Err(Fault::Refused(Refusal::Limits));
    assert!(rt; matches!(or_refusal(&rt, refused), Ok(None)));
    assert!(rt; matches!(or_refusal(&rt, Ok(7u8)), Ok(Some(7))));
}
