use by_size::BySize;
use kbo::KnuthBendix;
use lpo::LexicographicPath;
use order::ReductionOrder;
use order::orient::orient;
use signature::signature::Signature;
use terms::pattern::{Node, Pattern};
use terms::side::Side;

static NUMBERS: &[u8] = b"z\t0\t1\ns\t1\t1\na\t2\t1\n";

static RING: &[u8] = b"z\t0\t1\ne\t0\t1\np\t2\t1\nm\t2\t1\ni\t1\t1\n";

static HEAVY: &[u8] = b"z\t0\t3\ng\t1\t2\nf\t1\t5\nh\t1\t5\n";

fn node(signature: &Signature, letter: u8) -> Option<Node> {
    if let b'X'..=b'Z' = letter {
        return Some(Node::Var(letter - b'X'));
    }
    let symbol = signature.find(&[letter])?;
    let arity = signature.arity(symbol)?;
    Some(Node::App { symbol, arity })
}

// A term in Polish notation: X, Y and Z are variables, other letters symbols.
fn pattern(signature: &Signature, text: &[u8]) -> Option<Pattern> {
    let mut nodes = [Node::Var(0); 32];
    for (place, letter) in nodes.iter_mut().zip(text) {
        *place = node(signature, *letter)?;
    }
    Pattern::new(nodes.get(..text.len())?)
}

// '>' where s is above t, '<' where t is above s, '?' where neither is: a letter each, so that three answers are one text.
fn turned<O: ReductionOrder>(order: &O, signature: &Signature, s: &Pattern, t: &Pattern) -> u8 {
    match orient(order, signature, s, t) {
        Some(Side::Left) => b'>',
        Some(Side::Right) => b'<',
        None => b'?',
    }
}

// How Knuth-Bendix, the path order and size turn two terms.
fn answers(signature: &[u8], s: &[u8], t: &[u8]) -> Option<[u8; 3]> {
    let g = Signature::read(signature).ok()?;
    let s = pattern(&g, s)?;
    let t = pattern(&g, t)?;
    Some([
        turned(&KnuthBendix, &g, &s, &t),
        turned(&LexicographicPath, &g, &s, &t),
        turned(&BySize, &g, &s, &t),
    ])
}

#[test]
fn numbers(rt: HostRuntime) {
    assert_eq!(rt; answers(NUMBERS, b"azY", b"sY"), Some(*b">>>"));
    assert_eq!(rt; answers(NUMBERS, b"asXz", b"aXsz"), Some(*b">>?"));
    assert_eq!(rt; answers(NUMBERS, b"asXsY", b"aXasXY"), Some(*b"<><"));
    assert_eq!(rt; answers(NUMBERS, b"X", b"z"), Some(*b"???"));
}

#[test]
fn rings(rt: HostRuntime) {
    assert_eq!(rt; answers(RING, b"mmXYZ", b"mXmYZ"), Some(*b">>?"));
    assert_eq!(rt; answers(RING, b"mXpYZ", b"pmXYmXZ"), Some(*b"<><"));
    assert_eq!(rt; answers(RING, b"imXY", b"miYiX"), Some(*b"<><"));
    assert_eq!(rt; answers(RING, b"mXY", b"mYX"), Some(*b"???"));
    assert_eq!(rt; answers(RING, b"miXX", b"e"), Some(*b">>>"));
    assert_eq!(rt; answers(RING, b"iX", b"mXX"), Some(*b"<><"));
    assert_eq!(rt; answers(RING, b"pzX", b"peX"), Some(*b"<<?"));
}

#[test]
fn weights(rt: HostRuntime) {
    assert_eq!(rt; answers(HEAVY, b"ggX", b"fX"), Some(*b"<<>"));
    assert_eq!(rt; answers(HEAVY, b"hX", b"fX"), Some(*b">>?"));
    assert_eq!(rt; answers(HEAVY, b"fX", b"gggX"), Some(*b"<><"));
    assert_eq!(rt; answers(HEAVY, b"z", b"gX"), Some(*b"<<<"));
}

#[test]
fn deep_terms(rt: HostRuntime) {
    let s = b"mmmmeemeemmeemeemmmeemeemmeemee";
    let t = b"mmmmzzmzzmmzzmzzmmmzzmzzmmzzmzz";
    assert_eq!(rt; answers(RING, s, t), Some(*b">>?"));
}

// Terms of one signature, asked about under another: a symbol too many, and another arity.
fn foreign_answer(s: &[u8]) -> Option<u8> {
    let ring = Signature::read(RING).ok()?;
    let numbers = Signature::read(NUMBERS).ok()?;
    let s = pattern(&ring, s)?;
    let t = pattern(&ring, b"X")?;
    Some(turned(&LexicographicPath, &numbers, &s, &t))
}

#[test]
fn foreign_terms(rt: HostRuntime) {
    assert_eq!(rt; foreign_answer(b"pXX"), Some(b'>'));
    assert_eq!(rt; foreign_answer(b"mXX"), Some(b'?'));
    assert_eq!(rt; foreign_answer(b"pXe"), Some(b'?'));
}
