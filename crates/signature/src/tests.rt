use crate::signature::Signature;
use refusal::Refusal;
use std::alloc::{AllocError, Global};
use std::test::Fail;

// As many good lines.
fn lines(heap: Global, count: u8) -> Result<String, AllocError> {
    let mut text = String::new(heap);
    for i in 0..count {
        write!(text, "a{i:02}\t0\t1\n")?;
    }
    Ok(text)
}

// Texts, each with the line that is refused, if one is.
static TEXTS: [(&[u8], Option<usize>); 24] = [
    (b"f\t0\t1\n", None),
    (b"f\t4\t100\ncnf\t2\t10\n", None),
    (b"a234567890123_56\t0\t1\n", None),
    (b"", Some(1)),
    (b"\n", Some(1)),
    (b"f\t0\t1", Some(1)),
    (b"f\t0\t1\ng\t0\t1", Some(2)),
    (b"f\t0\t1\n\n", Some(2)),
    (b"f\t0\t1\r\n", Some(1)),
    (b"f\t0\t1\t\n", Some(1)),
    (b"f \t0\t1\n", Some(1)),
    (b"f\t0\t1\ng\t0\t1\nf\t1\t1\n", Some(3)),
    (b"F\t0\t1\n", Some(1)),
    (b"_f\t0\t1\n", Some(1)),
    (b"\t0\t1\n", Some(1)),
    (b"a234567890123_567\t0\t1\n", Some(1)),
    (b"f\t00\t1\n", Some(1)),
    (b"f\t01\t1\n", Some(1)),
    (b"f\t5\t1\n", Some(1)),
    (b"f\t\t1\n", Some(1)),
    (b"f\t0\t0\n", Some(1)),
    (b"f\t0\t101\n", Some(1)),
    (b"f\t0\t1000\n", Some(1)),
    (b"f\t0\t+1\n", Some(1)),
];

#[test]
fn texts(rt: HostRuntime) {
    for (text, line) in &TEXTS {
        assert_eq!(rt;
            Signature::read(text).err(),
            line.map(Refusal::SignatureLine)
        );
    }
}

#[test]
fn symbols(rt: HostRuntime) -> Result<(), Fail> {
    let s = Signature::read(b"zero\t0\t1\nplus\t2\t30\n")?;
    assert_eq!(rt; s.count(), 2);
    assert_eq!(rt; s.find(b"plus"), Some(1));
    assert_eq!(rt; s.find(b"plu"), None);
    assert_eq!(rt; s.arity(1), Some(2));
    assert_eq!(rt; s.weight(1), Some(30));
    assert_eq!(rt; s.weight(2), None);
    Ok(())
}

#[test]
fn many_lines(rt: HostRuntime) -> Result<(), Fail> {
    let refused = Some(Refusal::SignatureLine(65));
    let mut text = lines(rt.alloc(), 64)?;
    assert_eq!(rt; Signature::read(text.as_bytes()).err(), None);
    text.push('?')?;
    assert_eq!(rt; Signature::read(text.as_bytes()).err(), refused);
    let more = lines(rt.alloc(), 65)?;
    assert_eq!(rt; Signature::read(more.as_bytes()).err(), refused);
    Ok(())
}
