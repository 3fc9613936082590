// The order by size, which has little to prove: the example that docs/WRITING_AN_ORDER.md goes through.
#![tactic(auto)]

ghost use Rattle.std.specs.Prelude.{Decides};
ghost use Rattle.terms.specs.Patterns.{term_of};
ghost use Rattle.signature.specs.Signatures.{sig_of};
ghost use Rattle.rewriting.specs.Order.{Within};
ghost use Rattle.by_size.specs.Size.{Larger};
ghost use Rattle.rewriting.proofs.Over.{within};
ghost use Rattle.by_size.specs.Laws.{larger_lawful};

use order::ReductionOrder;
use over::are_over;
use signature::signature::Signature;
use subterms::variables::covers;
use terms::pattern::Pattern;

#[derive(Clone, Copy)]
pub struct BySize;

impl ReductionOrder for BySize {
    ghost above = { λ o g. Within (sig_of g) Larger };

    ghost reduces = { λ o g. within (sig_of g) larger_lawful };

    fn is_above(&self, signature: &Signature, s: &Pattern, t: &Pattern) -> bool {
        are_over(signature, s, t) && is_larger(s, t)
    }
}

fn is_larger(s: &Pattern, t: &Pattern) -> bool
    ensures { Decides result (Larger (term_of s.now) (term_of t.now)) }
{
    s.len() > t.len() && covers(s.nodes(), t.nodes())
}
