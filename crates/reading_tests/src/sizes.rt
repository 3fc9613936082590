// Formulas over the limits: 32 cells to a side, 16 variables to a formula.
use crate::texts::{read, refused, towers};
use refusal::Refusal;
use std::test::Fail;

// Formulas of at most 16 variables, and of at most 32 cells to a side.
static WITHIN: [&[u8]; 5] = [
    b"cnf(e,axiom,h(h(A,B,C,D),h(E,F,G,H),h(I,J,K,L),h(M,N,O,P))=A).",
    b"cnf(e,axiom,A=h(h(A,B,C,D),h(E,F,G,H),h(I,J,K,L),h(M,N,O,P))).",
    b"cnf(e,axiom,h(h(A,B,C,D),h(E,F,G,H),h(I,J,K,L),h(M,N,O,P))=h(h(A,B,C,D),h(E,F,G,H),h(I,J,K,L),h(M,N,O,P))).",
    b"cnf(e,axiom,f(A,f(B,f(C,f(D,f(E,f(F,f(G,f(H,f(I,f(J,f(K,f(L,f(M,f(N,f(O,P)))))))))))))))=P).",
    b"cnf(e,axiom,s(f(A,f(B,f(C,f(D,f(E,f(F,f(G,f(H,f(I,f(J,f(K,f(L,f(M,f(N,f(O,P))))))))))))))))=a).",
];

// Formulas, each with the byte of the 17th variable or the 33rd cell, or of one that is both.
static TOO_LARGE: [(&[u8], usize); 7] = [
    (
        b"cnf(e,axiom,h(h(A,B,C,D),h(E,F,G,H),h(I,J,K,L),h(M,N,O,P))=Q).",
        59,
    ),
    (
        b"cnf(e,axiom,Q=h(h(A,B,C,D),h(E,F,G,H),h(I,J,K,L),h(M,N,O,P))).",
        57,
    ),
    (
        b"cnf(e,axiom,f(h(h(A,B,C,D),h(E,F,G,H),h(I,J,K,L),h(M,N,O,P)),Q)=R).",
        61,
    ),
    (
        b"cnf(e,axiom,h(h(A,B,C,D),h(E,F,G,H),h(I,J,K,L),h(M,N,O,P))=f(A,AA)).",
        63,
    ),
    (
        b"cnf(e,axiom,f(A,f(B,f(C,f(D,f(E,f(F,f(G,f(H,f(I,f(J,f(K,f(L,f(M,f(N,f(O,f(P,Q))))))))))))))))=a).",
        76,
    ),
    (
        b"cnf(e,axiom,a=f(A,f(B,f(C,f(D,f(E,f(F,f(G,f(H,f(I,f(J,f(K,f(L,f(M,f(N,f(O,f(P,Q))))))))))))))))).",
        78,
    ),
    (
        b"cnf(e,axiom,s(s(f(A,f(B,f(C,f(D,f(E,f(F,f(G,f(H,f(I,f(J,f(K,f(L,f(M,f(N,f(O,P)))))))))))))))))=Q).",
        76,
    ),
];

#[test]
fn within(rt: HostRuntime) {
    for text in &WITHIN {
        assert_eq!(rt; refused(text), None);
    }
}

#[test]
fn too_large(rt: HostRuntime) {
    for (text, byte) in &TOO_LARGE {
        assert_eq!(rt; refused(text), Some(Refusal::Size(*byte)));
    }
}

#[test]
fn full_sides(rt: HostRuntime) -> Result<(), Fail> {
    let text = towers(rt.alloc(), 31, b"=", 31, b").")?;
    let e = read(&text)?;
    assert_eq!(rt; e.left.len(), 32);
    assert_eq!(rt; e.right.len(), 32);
    assert_eq!(rt; e.variables, 0);
    Ok(())
}

// A tower, what stands between, another tower, the rest. A symbol that is misused anywhere goes before any size.
static TOWERS: [(usize, &[u8], usize, &[u8], Refusal); 8] = [
    (32, b"=", 32, b").", Refusal::Size(76)),
    (31, b"=", 32, b").", Refusal::Size(171)),
    (0, b"=f(", 32, b",X)).", Refusal::Size(78)),
    (10_917, b"=", 0, b").", Refusal::Size(76)),
    (10_917, b"=", 0, b"). ", Refusal::Limits),
    (32, b"=f(c,", 0, b")).", Refusal::Symbol(112)),
    (0, b"=f(", 32, b",s)).", Refusal::Symbol(114)),
    (0, b"=f(", 32, b")).", Refusal::Symbol(14)),
];

#[test]
fn too_high(rt: HostRuntime) -> Result<(), Fail> {
    for (left, between, right, back, refusal) in &TOWERS {
        let text = towers(rt.alloc(), *left, between, *right, back)?;
        assert_eq!(rt; refused(&text), Some(*refusal));
    }
    Ok(())
}
