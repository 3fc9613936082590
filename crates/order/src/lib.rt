// Reduction orders: what an order promises, and the one question that it is asked.
#![tactic(auto)]

ghost use Rattle.std.specs.Prelude.{Decides};
ghost use Rattle.terms.specs.Term.{Term};
ghost use Rattle.terms.specs.Patterns.{term_of};
ghost use Rattle.signature.specs.Signatures.{sig_of};
ghost use Rattle.signature.specs.declared.signature.Signature.{Signature};
ghost use Rattle.rewriting.specs.Order.{Reduces};

use signature::signature::Signature;
use terms::pattern::Pattern;

pub mod orient;

pub trait ReductionOrder {
    // s is above t: of all terms of the signature, of any size.
    ghost above: { Self → Signature → Term → Term → Type 0 };

    // Whether s is above t; never where one of them has a symbol or an arity that the signature has not.
    fn is_above(&self, signature: &Signature, s: &Pattern, t: &Pattern) -> bool
        ensures { Decides result (above self.now signature.now (term_of s.now) (term_of t.now)) };

    // Instances and argument places keep it, no descent is endless, the lower side has no variable of its own.
    ghost reduces: { (o : Self) (g : Signature) → Reduces (sig_of g) (above o g) };
}
