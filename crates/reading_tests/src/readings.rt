// What is read of a formula.
use crate::texts::read;
use formula::equation::{Role, Sign};
use formula::reading::role_named;
use std::test::Fail;
use terms::pattern::Node;

static ROLES: [(&[u8], Role); 9] = [
    (b"axiom", Role::Axiom),
    (b"hypothesis", Role::Hypothesis),
    (b"negated_conjecture", Role::NegatedConjecture),
    (b"conjecture", Role::Other),
    (b"axioms", Role::Other),
    (b"axio", Role::Other),
    (b"Axiom", Role::Other),
    (b"negated", Role::Other),
    (b"", Role::Other),
];

static FORMULAS: [(&[u8], Role, Sign); 6] = [
    (b"cnf(e,axiom,f(a,b)=b).", Role::Axiom, Sign::Equal),
    (
        b"cnf(axiom,hypothesis,f(a,b)!=b).",
        Role::Hypothesis,
        Sign::Unequal,
    ),
    (
        b"cnf(e,negated_conjecture,a!=b).",
        Role::NegatedConjecture,
        Sign::Unequal,
    ),
    (
        b"cnf(axiom, /* axiom, */ plain,a=b).",
        Role::Other,
        Sign::Equal,
    ),
    (b"cnf(e,axiom,(a/* != */=b)).", Role::Axiom, Sign::Equal),
    (b"cnf(e,axiom,(a% =\n!=b)).", Role::Axiom, Sign::Unequal),
];

const F: Node = Node::App {
    symbol: 4,
    arity: 2,
};

const ZERO: Node = Node::App {
    symbol: 2,
    arity: 0,
};

// Whether a formula has so many variables, and these nodes on its sides.
fn reads_as(text: &[u8], variables: usize, left: &[Node], right: &[Node]) -> bool {
    read(text).is_ok_and(|e| {
        e.variables == variables && e.left.nodes() == left && e.right.nodes() == right
    })
}

#[test]
fn words(rt: HostRuntime) {
    for (word, role) in &ROLES {
        assert_eq!(rt; role_named(word), *role);
    }
}

#[test]
fn roles_and_signs(rt: HostRuntime) -> Result<(), Fail> {
    for (text, role, sign) in &FORMULAS {
        let e = read(text)?;
        assert_eq!(rt; e.role, *role);
        assert_eq!(rt; e.sign, *sign);
    }
    Ok(())
}

#[test]
fn nodes(rt: HostRuntime) {
    let left = [F, Node::Var(0), Node::Var(1)];
    let right = [F, Node::Var(1), Node::Var(2)];
    assert!(rt; reads_as(b"cnf(e,axiom,f(Y,X)=f(X,Z)).", 3, &left, &right));
    assert!(rt; reads_as(b"cnf(e,axiom,(f(X,XX)!=f(XX,X1))).", 3, &left, &right));
    let text = b"% x\r\n\tcnf(e,axiom,\tf(zero, /* b */ X)\r\n= % Y\r Z\n\tzero).";
    assert!(rt; reads_as(text, 1, &[F, ZERO, Node::Var(0)], &[ZERO]));
}
