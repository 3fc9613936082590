// Problem texts, formula by formula.
use crate::texts::repeated;
use grammar::check::check_formula;
use grammar::reader::Reader;
use refusal::Refusal;
use std::test::Fail;

// Whether the next formula stands at this place, has these bytes, and is a formula when it stands alone.
fn hands_out(reader: &mut Reader<'_>, place: usize, bytes: &[u8]) -> bool {
    matches!(
        reader.next(),
        Ok(Some(part)) if part.place == place && part.bytes == bytes && check_formula(part.bytes).is_ok()
    )
}

fn is_at_end(reader: &mut Reader<'_>) -> bool {
    matches!(reader.next(), Ok(None))
}

fn refuses(reader: &mut Reader<'_>) -> Option<Refusal> {
    reader.next().err()
}

#[test]
fn formulas(rt: HostRuntime) -> Result<(), Fail> {
    let mut reader = Reader::over(
        b"% one\ncnf(a,axiom,a=b). /* two */ cnf ( b,axiom,\nX=a) .\n% end",
    )?;
    assert!(rt; hands_out(&mut reader, 6, b"cnf(a,axiom,a=b)."));
    assert!(rt; hands_out(&mut reader, 34, b"cnf ( b,axiom,\nX=a) ."));
    assert!(rt; is_at_end(&mut reader));
    assert!(rt; is_at_end(&mut reader));
    Ok(())
}

static EMPTY: [&[u8]; 3] = [b"", b"\t", b" \r\n/* x */ % y"];

#[test]
fn no_formulas(rt: HostRuntime) -> Result<(), Fail> {
    for text in &EMPTY {
        let mut reader = Reader::over(text)?;
        assert!(rt; is_at_end(&mut reader));
    }
    Ok(())
}

// Broken behind a good formula: each text with the byte.
static BROKEN: [(&[u8], usize); 4] = [
    (
        b"cnf(a,axiom,a=b).\ncnf(b,axiom,a(=b). cnf(c,axiom,a=b).",
        32,
    ),
    (b"cnf(a,axiom,a=b).\ncnf(b,axiom  % x", 34),
    (b"cnf(a,axiom,a=b). /* x", 18),
    (b"cnf(a,axiom,a=b).. cnf(c,axiom,a=b).", 17),
];

#[test]
fn stays(rt: HostRuntime) -> Result<(), Fail> {
    for (text, byte) in &BROKEN {
        let mut reader = Reader::over(text)?;
        assert!(rt; hands_out(&mut reader, 0, b"cnf(a,axiom,a=b)."));
        assert_eq!(rt; refuses(&mut reader), Some(Refusal::Grammar(*byte)));
        assert_eq!(rt; refuses(&mut reader), Some(Refusal::Grammar(*byte)));
    }
    Ok(())
}

fn is_too_long(text: &[u8]) -> bool {
    matches!(Reader::over(text), Err(Refusal::Limits))
}

#[test]
fn longest(rt: HostRuntime) -> Result<(), Fail> {
    let mut text = repeated(rt.alloc(), b"", b"%", 32_768, b"")?;
    assert!(rt; !is_too_long(&text));
    text.push(b'%')?;
    assert!(rt; is_too_long(&text));
    Ok(())
}
