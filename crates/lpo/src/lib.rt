// The lexicographic path order: a later symbol of the signature is higher in precedence.
#![tactic(auto)]

ghost use Rattle.signature.specs.Signatures.{sig_of};
ghost use Rattle.rewriting.specs.Order.{Within};
ghost use Rattle.rewriting.specs.Lpo.{Lpo};
ghost use Rattle.rewriting.proofs.Over.{within};
ghost use Rattle.rewriting.proofs.Lpo.{lpo_lawful};

use order::ReductionOrder;
use over::are_over;
use signature::signature::Signature;
use terms::pattern::Pattern;

mod sides;

#[derive(Clone, Copy)]
pub struct LexicographicPath;

impl ReductionOrder for LexicographicPath {
    ghost above = { λ o g. Within (sig_of g) Lpo };

    ghost reduces = { λ o g. within (sig_of g) lpo_lawful };

    fn is_above(&self, signature: &Signature, s: &Pattern, t: &Pattern) -> bool {
        are_over(signature, s, t) && sides::is_above(s, t)
    }
}
