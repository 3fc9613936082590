// The Knuth-Bendix order over a signature's weights; a variable weighs 1.
#![tactic(auto)]

ghost use Rattle.signature.specs.Signatures.{sig_of};
ghost use Rattle.rewriting.specs.Order.{Within};
ghost use Rattle.rewriting.specs.Kbo.{Kbo};
ghost use Rattle.signature.proofs.Symbols.{weight_some};
ghost use Rattle.rewriting.proofs.Over.{within};
ghost use Rattle.rewriting.proofs.Kbo.{kbo_lawful};

use order::ReductionOrder;
use over::are_over;
use signature::signature::Signature;
use subterms::Subterms;
use terms::pattern::Pattern;

mod compare;
mod heads;
mod weights;

#[derive(Clone, Copy)]
pub struct KnuthBendix;

impl ReductionOrder for KnuthBendix {
    ghost above = { λ o g. Within (sig_of g) (Kbo (sig_of g).weight) };

    ghost reduces = { λ o g. within (sig_of g) (kbo_lawful (sig_of g).weight (weight_some g)) };

    fn is_above(&self, signature: &Signature, s: &Pattern, t: &Pattern) -> bool {
        are_over(signature, s, t)
            && compare::is_above(signature, &Subterms::new(s), &Subterms::new(t))
    }
}
