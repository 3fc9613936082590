// Texts with symbols that the signature does not have, or has with another arity.
use crate::texts::{refused, repeated};
use refusal::Refusal;
use std::test::Fail;

// Names and roles are no symbols.
static USED: [&[u8]; 5] = [
    b"cnf(e,axiom,a=b).",
    b"cnf(e,axiom,zero=s(zero)).",
    b"cnf(e,axiom,f(X,s(Y))!=h(a,b,X,Y)).",
    b"cnf(e,axiom,(zero=Zero)).",
    b"cnf(none,of_these,a=b).",
];

// Formulas, each with the byte of the first symbol that is misused.
static MISUSED: [(&[u8], usize); 24] = [
    (b"cnf(e,axiom,c=a).", 12),
    (b"cnf(e,axiom,a=c).", 14),
    (b"cnf(e,axiom,X=c(X)).", 14),
    (b"cnf(e,axiom,cnf=a).", 12),
    (b"cnf(e,axiom,zer=a).", 12),
    (b"cnf(e,axiom,zeros=a).", 12),
    (b"cnf(e,axiom,axiom=a).", 12),
    (b"cnf(e,axiom,(c=a)).", 13),
    (b"cnf(e,axiom,zero(X)=a).", 12),
    (b"cnf(e,axiom,s=a).", 12),
    (b"cnf(e,axiom,a=s).", 14),
    (b"cnf(e,axiom,s(X,Y)=a).", 12),
    (b"cnf(e,axiom,f(X)=a).", 12),
    (b"cnf(e,axiom,f(X,Y,Z)=a).", 12),
    (b"cnf(e,axiom,f=a).", 12),
    (b"cnf(e,axiom,h(X,X,X)=a).", 12),
    (b"cnf(e,axiom,h(X,X,X,X,X)=a).", 12),
    (b"cnf(e,axiom,s(a,c)=a).", 12),
    (b"cnf(e,axiom,c(c,s)=c).", 12),
    (b"cnf(e,axiom,f(c,s)=c).", 14),
    (b"cnf(e,axiom,f(a,s)=c).", 16),
    (b"cnf(e,axiom,s(s(f,c))=s).", 14),
    (b"cnf(e,axiom,f(s(a),f(f(a,b)))=a).", 19),
    (b"cnf(e,axiom,f(f(a,b),f(X,f(b,a)))=zero(c)).", 34),
];

#[test]
fn used(rt: HostRuntime) {
    for text in &USED {
        assert_eq!(rt; refused(text), None);
    }
}

#[test]
fn misused(rt: HostRuntime) {
    for (text, byte) in &MISUSED {
        assert_eq!(rt; refused(text), Some(Refusal::Symbol(*byte)));
    }
}

// 260 arguments are not 4, and an unknown symbol has no arity.
static WIDE: [(&[u8], usize); 2] = [(b"cnf(e,axiom,h(X", 259), (b"cnf(e,axiom,c(X", 254)];

#[test]
fn wide(rt: HostRuntime) -> Result<(), Fail> {
    for (front, times) in &WIDE {
        let text = repeated(rt.alloc(), front, b",X", *times, b")=a).")?;
        assert_eq!(rt; refused(&text), Some(Refusal::Symbol(12)));
    }
    Ok(())
}

#[test]
fn grammar_first(rt: HostRuntime) {
    assert_eq!(rt; refused(b"cnf(e,axiom,c=a)"), Some(Refusal::Grammar(16)));
}
