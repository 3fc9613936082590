// Which way an equation is a rewrite rule.
ghost use mathlib.Core.WellFounded.{Acc};
ghost use Rattle.terms.specs.Term.{Term};
ghost use Rattle.terms.specs.Patterns.{term_of};
ghost use Rattle.signature.specs.Signatures.{sig_of};
ghost use Rattle.rewriting.specs.Steps.{Rewrites};
ghost use Rattle.order.specs.Sides.{Turned};

use crate::ReductionOrder;
use signature::signature::Signature;
use terms::pattern::Pattern;
use terms::side::Side;

// The higher of two terms. Rewriting by such rules, from their higher sides to their lower, ends.
pub fn orient<O: ReductionOrder>(
    order: &O,
    signature: &Signature,
    s: &Pattern,
    t: &Pattern,
) -> Option<Side>
    ensures turned { Turned (O.ReductionOrder.above order.now signature.now) result (term_of s.now) (term_of t.now) }
    ensures ends { (u : Term) → Acc (λ (v w : Term). Rewrites (sig_of signature.now) (O.ReductionOrder.above order.now signature.now) w v) u }
{
    if order.is_above(signature, s, t) {
        Some(Side::Left)
    } else if order.is_above(signature, t, s) {
        Some(Side::Right)
    } else {
        None
    }
}
