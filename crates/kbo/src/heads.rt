// What two terms' variables, weights and heads say.
ghost use Rattle.std.specs.Prelude.{◌≡◌, ◌<◌, ◌≤◌, length};
ghost use Rattle.terms.specs.Term.{Term};
ghost use Rattle.terms.specs.Preorder.{preorder};
ghost use Rattle.signature.specs.Signatures.{sig_of};
ghost use Rattle.kbo.specs.Verdicts.{by_heads, Says};

use crate::weights::weight;
use signature::signature::Signature;
use std::cmp::Ordering;
use subterms::variables::covers;
use terms::pattern::Node;

#[derive(Clone, Copy, PartialEq, Eq, Debug)]
pub enum Verdict {
    Above,
    NotAbove,
    // Equal weights and heads: the first arguments that differ decide.
    ByArguments,
}

pub fn judge(signature: &Signature, s: &[Node], t: &[Node]) -> Verdict
    requires { (length s.now ≤ 32) × ((length t.now ≤ 32) × ((0 < length s.now) × (0 < length t.now))) }
    ensures { (u v : Term) → s.now ≡ preorder u → t.now ≡ preorder v → Says (sig_of signature.now).weight result u v }
{
    if !covers(s, t) {
        return Verdict::NotAbove;
    }
    match weight(signature, s).cmp(&weight(signature, t)) {
        Ordering::Greater => Verdict::Above,
        Ordering::Less => Verdict::NotAbove,
        Ordering::Equal => compare_heads(s[0], t[0]),
    }
}

fn compare_heads(s: Node, t: Node) -> Verdict
    ensures { result ≡ by_heads s t }
{
    match (s, t) {
        (
            Node::App {
                symbol: f,
                arity: a,
            },
            Node::App {
                symbol: g,
                arity: b,
            },
        ) => {
            if g < f {
                Verdict::Above
            } else if f == g && a == b {
                Verdict::ByArguments
            } else {
                Verdict::NotAbove
            }
        }
        _ => Verdict::NotAbove,
    }
}
