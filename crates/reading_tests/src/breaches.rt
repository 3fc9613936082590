// Texts against the grammar.
use crate::texts::repeated;
use grammar::check::check_formula;
use refusal::Refusal;
use std::process::Abort;
use std::test::Fail;

// Formulas, with all kinds of separators.
static SOUND: [&[u8]; 13] = [
    b"cnf(e,axiom,a=b).",
    b"cnf(e,axiom,(a=b)).",
    b"cnf(e,axiom,a!=b).",
    b"cnf(e,axiom,(X!=f(X,s(Y)))).",
    b"cnf(cnf,cnf,cnf=cnf).",
    b"cnf(e_1Z,negated_conjecture,aB_9=X_9z).",
    b" \t\r\ncnf ( e\n,\r\naxiom\t, ( a = b ) ) . \n",
    b"% before\ncnf(e,axiom,a=b).% behind",
    b"/* before */cnf(e,axiom,a=b)./**/",
    b"cnf/* % */(e,% */ /*\naxiom,a/***/=/*/*/b).",
    b"cnf(e,axiom,a=b). % one line\r the same line",
    b"% \x00\x80\xff\n/* \x00\x80\xff */cnf(e,axiom,a=b).",
    b"/* * / ** */cnf(e,axiom,a=b).",
];

// Texts that give out too early: refused at their length.
static ENDS: [(&[u8], usize); 17] = [
    (b"", 0),
    (b"  \n", 3),
    (b"% only\r", 7),
    (b"/* only */", 10),
    (b"% cnf(e,axiom,a=b).\rcnf(e,axiom,a=b).", 37),
    (b"cnf", 3),
    (b"cnf(e,axi", 9),
    (b"cnf(e,axi  ", 11),
    (b"cnf(e,axi% x", 12),
    (b"cnf(e,axi /* x */", 17),
    (b"cnf(e,axiom,a", 13),
    (b"cnf(e,axiom,a=", 14),
    (b"cnf(e,axiom,a=b", 15),
    (b"cnf(e,axiom,a=b)", 16),
    (b"cnf(e,axiom,(a=b)", 17),
    (b"cnf(e,axiom,f(", 14),
    (b"cnf(e,axiom,f(a,", 16),
];

// Bytes that start no token, and comments that are never closed.
static BYTES: [(&[u8], usize); 23] = [
    (b"/* x", 0),
    (b"/*/cnf(e,axiom,a=b).", 0),
    (b"/* cnf(e,axiom,a=b).", 0),
    (b"cnf(e,axiom,a=b). /*", 18),
    (b"cnf(e,axiom,a=b)./* * /", 17),
    (b"cnf(e,axi/*/", 9),
    (b"cnf(e,axiom,a=b)./", 17),
    (b"cnf(e,axiom,a/b).", 13),
    (b"cnf(e,axiom,a!", 13),
    (b"cnf(e,axiom,a ! =b).", 14),
    (b"cnf(e,axiom,a=b).!", 17),
    (b"!=", 0),
    (b"\x00", 0),
    (b"\x80", 0),
    (b"cnf(e,axiom,a=b).\x00", 17),
    (b"cnf(e,axiom,a\xff=b).", 13),
    (b"cnf(e,\x00axiom,a=b).", 6),
    (b"cnf(e,axiom,a=b)\xc3\xa9", 16),
    (b"cnf(e,axiom,a=b).\x0b", 17),
    (b"cnf(e,axiom,_a=b).", 12),
    (b"cnf(e,axiom,1=b).", 12),
    (b"cnf(e,axiom,~a=b).", 12),
    (b"cnf('e',axiom,a=b).", 4),
];

// Tokens that cannot follow.
static ORDER: [(&[u8], usize); 35] = [
    (b"cn", 0),
    (b"cnfs(e,axiom,a=b).", 0),
    (b"Cnf(e,axiom,a=b).", 0),
    (b"fof(e,axiom,a=b).", 0),
    (b"(e,axiom,a=b).", 0),
    (b"cnfe,axiom,a=b).", 0),
    (b"cnf e,axiom,a=b).", 4),
    (b"cnf(E,axiom,a=b).", 4),
    (b"cnf(e axiom,a=b).", 6),
    (b"cnf(e,Axiom,a=b).", 6),
    (b"cnf(e,axiom).", 11),
    (b"cnf(e,axiom,).", 12),
    (b"cnf(e,axiom,zero()=a).", 17),
    (b"cnf(e,axiom,a=zero()).", 19),
    (b"cnf(e,axiom,X(a)=b).", 13),
    (b"cnf(e,axiom,((a=b))).", 13),
    (b"cnf(e,axiom,(a)=b).", 14),
    (b"cnf(e,axiom,a=(b)).", 14),
    (b"cnf(e,axiom,f(a,)=b).", 16),
    (b"cnf(e,axiom,f(,a)=b).", 14),
    (b"cnf(e,axiom,f(a b)=b).", 16),
    (b"cnf(e,axiom,f((a))=b).", 14),
    (b"cnf(e,axiom,f(a)(b)=b).", 16),
    (b"cnf(e,axiom,f(a=b).", 15),
    (b"cnf(e,axiom,a).", 13),
    (b"cnf(e,axiom,a,b).", 13),
    (b"cnf(e,axiom,a==b).", 14),
    (b"cnf(e,axiom,a=b=a).", 15),
    (b"cnf(e,axiom,a=b,a).", 15),
    (b"cnf(e,axiom,(a=b).", 17),
    (b"cnf(e,axiom,a=b))", 16),
    (b"cnf(e,axiom,(a=b))).", 18),
    (b"cnf(e,axiom,a=b).cnf(e,axiom,a=b).", 17),
    (b"cnf(e,axiom,a=b)..", 17),
    (b"cnf(e,axiom,a=b). /* x */ X", 26),
];

// A front, and a piece as many times behind it.
static LONG: [(&[u8], &[u8], usize, Result<(), Refusal>); 7] = [
    (b"cnf(e,axiom,a=b).", b" ", 32_751, Ok(())),
    (b"cnf(e,axiom,a=b).", b" ", 32_752, Err(Refusal::Limits)),
    (b"", b"(", 32_768, Err(Refusal::Grammar(0))),
    (b"", b"(", 32_769, Err(Refusal::Limits)),
    (b"cnf(e,axiom,", b"(", 32_756, Err(Refusal::Grammar(13))),
    (
        b"cnf(e,axiom,",
        b"s(",
        16_378,
        Err(Refusal::Grammar(32_768)),
    ),
    (
        b"cnf(e,axiom,a=b)./*",
        b"*",
        32_749,
        Err(Refusal::Grammar(17)),
    ),
];

fn all_broken(rt: &impl Abort, table: &[(&[u8], usize)]) {
    for (text, byte) in table {
        assert_eq!(rt; check_formula(text), Err(Refusal::Grammar(*byte)));
    }
}

#[test]
fn sound(rt: HostRuntime) {
    for text in &SOUND {
        assert_eq!(rt; check_formula(text), Ok(()));
    }
}

#[test]
fn ends(rt: HostRuntime) {
    all_broken(&rt, &ENDS);
}

#[test]
fn bytes(rt: HostRuntime) {
    all_broken(&rt, &BYTES);
}

#[test]
fn order(rt: HostRuntime) {
    all_broken(&rt, &ORDER);
}

// 32,768 bytes are read, and one more is refused, whatever the bytes are.
#[test]
fn long_texts(rt: HostRuntime) -> Result<(), Fail> {
    for (front, piece, times, outcome) in &LONG {
        let text = repeated(rt.alloc(), front, piece, *times, b"")?;
        assert_eq!(rt; check_formula(&text), *outcome);
    }
    Ok(())
}
