// Taking equations out.
use crate::sessions::{Called, open};
use index::index::Index;
use refusal::Refusal;

fn removed(number: u32) -> Called {
    let mut session = open()?;
    session.add(1, b"cnf(e,axiom,s(X)=X).")?;
    Ok(session.remove(number))
}

// The index and the lower sides have the number no more.
fn forgotten() -> Result<bool, Refusal> {
    let mut session = open()?;
    session.add(1, b"cnf(e,axiom,s(X)=X).")?;
    session.remove(1)?;
    let again = session.remove(1);
    let higher = session.file().index().get(1).is_ok();
    let lower = session.file().lowers().get(1).is_ok();
    Ok(again == Err(Refusal::NumberAbsent) && !higher && !lower)
}

#[test]
fn refusals(rt: HostRuntime) {
    assert_eq!(rt; removed(1), Ok(Ok(())));
    assert_eq!(rt; removed(2), Ok(Err(Refusal::NumberAbsent)));
    assert_eq!(rt; removed(0), Ok(Err(Refusal::NumberRange)));
    assert_eq!(rt; removed(30000), Ok(Err(Refusal::NumberAbsent)));
    assert_eq!(rt; removed(30001), Ok(Err(Refusal::NumberRange)));
    assert_eq!(rt; removed(65537), Ok(Err(Refusal::NumberRange)));
    assert_eq!(rt; forgotten(), Ok(true));
}
