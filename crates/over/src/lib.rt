// Patterns over a signature.
#![tactic(auto)]

ghost use Rattle.std.specs.Prelude.{◌≡◌, Decides};
ghost use Rattle.terms.specs.Sig.{Over};
ghost use Rattle.terms.specs.Patterns.{term_of};
ghost use Rattle.signature.specs.Signatures.{sig_of};
ghost use Rattle.over.specs.Nodes.{known};

use signature::signature::Signature;
use terms::pattern::{Node, Pattern};

// Whether each symbol of the pattern is one of the signature's, with as many arguments as its arity.
pub fn is_over(signature: &Signature, pattern: &Pattern) -> bool
    ensures { Decides result (Over (sig_of signature.now) (term_of pattern.now)) }
{
    pattern
        .nodes()
        .iter()
        .all(|node| is_known(signature, *node))
}

// Whether both patterns are over the signature.
pub fn are_over(signature: &Signature, s: &Pattern, t: &Pattern) -> bool
    ensures { Decides result (Over (sig_of signature.now) (term_of s.now) × Over (sig_of signature.now) (term_of t.now)) }
{
    is_over(signature, s) && is_over(signature, t)
}

fn is_known(signature: &Signature, node: Node) -> bool
    ensures { result ≡ known (sig_of signature.now) node }
{
    match node {
        Node::Var(_) => true,
        Node::App { symbol, arity } => signature.arity(symbol) == Some(arity),
    }
}
