use crate::call::{Call, Fault, Index, Order};
use crate::line::parse;
use crate::text::quoted;
use std::test::Fail;

// Lines that say nothing.
static MALFORMED: [&[u8]; 12] = [
    b"",
    b"release ",
    b" release",
    b"Release",
    b"remove 1000000000",
    b"remove 07",
    b"remove",
    b"open 1  lpo tree",
    b"open 1 lpo trees",
    b"audit 1",
    b"read text",
    b"add 1 \"a\" ",
];

#[test]
fn texts(rt: HostRuntime) -> Result<(), Fail> {
    let bytes = quoted(rt.alloc(), b"\"a\\t\\\"\\\\\\x4a\\x4A\"")?;
    assert!(rt; bytes.as_slice() == b"a\t\"\\JJ".as_slice());
    assert!(rt; quoted(rt.alloc(), b"\"a\"\"").is_err());
    assert!(rt; quoted(rt.alloc(), b"\"\\x4\"").is_err());
    assert!(rt; quoted(rt.alloc(), b"\"").is_err());
    Ok(())
}

#[test]
fn good_lines(rt: HostRuntime) -> Result<(), Fail> {
    assert!(rt; matches!(parse(rt.alloc(), b"release"), Ok(Call::Release)));
    assert!(rt;
        matches!(
            parse(rt.alloc(), b"remove 999999999"),
            Ok(Call::Remove(999_999_999))
        )
    );
    let Call::Open {
        number,
        order,
        index,
    } = parse(rt.alloc(), b"open 65535 lpo tree")?
    else {
        return Err(Fail::new("another call"));
    };
    assert!(rt; number == 65_535 && order == Order::Lpo && index == Index::Tree);
    Ok(())
}

#[test]
fn bad_lines(rt: HostRuntime) {
    for line in &MALFORMED {
        assert!(rt; matches!(parse(rt.alloc(), line), Err(Fault::Malformed)));
    }
}
