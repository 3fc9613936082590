// The session that the tests call.
use by_size::BySize;
use order::ReductionOrder;
use plain_list::PlainList;
use refusal::Refusal;
use session::Session;
use signature::signature::Signature;

static SYMBOLS: &[u8] = b"z\t0\t1\ne\t0\t1\ns\t1\t1\nf\t2\t1\n";

pub(crate) fn open_by<O: ReductionOrder + Drop>(
    order: O,
) -> Result<Session<PlainList, O>, Refusal> {
    let signature = Signature::read(SYMBOLS)?;
    Ok(Session::open(7, signature, PlainList::new(), order))
}

pub(crate) fn open() -> Result<Session<PlainList, BySize>, Refusal> {
    open_by(BySize)
}

// What became of one call, once the session stood.
pub(crate) type Called = Result<Result<(), Refusal>, Refusal>;

// The same by the refusal's number, where the byte that it carries does not matter.
pub(crate) fn numbered(call: Called) -> Result<Result<(), u8>, Refusal> {
    Ok(call?.map_err(|refusal| refusal.number()))
}

// One equation added to a session that has number 1.
pub(crate) fn added(number: u32, text: &[u8]) -> Called {
    let mut session = open()?;
    session.add(1, b"cnf(e,axiom,s(X)=X).")?;
    Ok(session.add(number, text))
}
