// A session whose index is full.
use crate::sessions::{Called, open};
use by_size::BySize;
use index::index::Index;
use plain_list::PlainList;
use refusal::Refusal;
use session::Session;

fn open_full() -> Result<Session<PlainList, BySize>, Refusal> {
    let mut session = open()?;
    for number in 1..=128u32 {
        session.add(number, b"cnf(e,axiom,s(X)=X).")?;
    }
    Ok(session)
}

fn added(number: u32, text: &[u8]) -> Called {
    let mut session = open_full()?;
    Ok(session.add(number, text))
}

// A number is free again once it is taken out.
fn replaced() -> Called {
    let mut session = open_full()?;
    session.remove(64)?;
    Ok(session.add(200, b"cnf(e,axiom,s(X)=X)."))
}

#[test]
fn refusals(rt: HostRuntime) {
    assert_eq!(rt;
        added(129, b"cnf(e,axiom,s(X)=X)."),
        Ok(Err(Refusal::CapacityReached))
    );
    assert_eq!(rt;
        added(128, b"cnf(e,axiom,s(X)=X)."),
        Ok(Err(Refusal::NumberTaken))
    );
    assert_eq!(rt;
        added(129, b"cnf(e,axiom,z=e)."),
        Ok(Err(Refusal::CapacityReached))
    );
    assert_eq!(rt;
        added(129, b"cnf(e,lemma,s(X)=X)."),
        Ok(Err(Refusal::RoleOrSign))
    );
    assert_eq!(rt; replaced(), Ok(Ok(())));
}
