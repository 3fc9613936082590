// The answer: down the first differing arguments until weights or heads decide.
ghost use Rattle.std.specs.Prelude.{◌≡◌, ℕ, ◌<◌, not, length, Decides, MatchOption};
ghost use Rattle.terms.specs.Term.{width};
ghost use Rattle.signature.specs.Signatures.{sig_of};
ghost use Rattle.rewriting.specs.Kbo.{Kbo, KboLex};
ghost use Rattle.rewriting.specs.Replace.{args};
ghost use Rattle.subterms.specs.Places.{at};
ghost use Rattle.subterms.specs.Rows.{row_of};
ghost use Rattle.kbo.specs.Differences.{First};

use crate::heads::{Verdict, judge};
use signature::signature::Signature;
use subterms::Subterms;

pub fn is_above(signature: &Signature, s: &Subterms, t: &Subterms) -> bool
    ensures { Decides result (Kbo (sig_of signature.now).weight (at (row_of s.now) 0) (at (row_of t.now) 0)) }
{
    let mut p = 0;
    let mut q = 0;
    loop {
        match judge(signature, s.subterm(p), t.subterm(q)) {
            Verdict::Above => return true,
            Verdict::NotAbove => return false,
            Verdict::ByArguments => {
                let Some((i, j)) = first_difference(s, p, t, q) else {
                    return false;
                };
                p = i;
                q = j;
            }
        }
    }
}

// The places of the first arguments that differ.
fn first_difference(s: &Subterms, p: usize, t: &Subterms, q: usize) -> Option<(usize, usize)>
    requires { width (args (at (row_of s.now) p)) ≡ width (args (at (row_of t.now) q)) }
    ensures { MatchOption result ((w : ℕ → ℕ) → KboLex w (args (at (row_of s.now) p)) (args (at (row_of t.now) q)) → ⊥) (λ d. First s.now p t.now q d.0 d.1) }
{
    s.arguments(p)
        .zip(t.arguments(q))
        .find(|(i, j)| differ(s, *i, t, *j))
}

// Whether the subterms at two places differ.
fn differ(s: &Subterms, i: usize, t: &Subterms, j: usize) -> bool
    ensures { Decides (not result) (i < length (row_of s.now) × j < length (row_of t.now) × (at (row_of s.now) i ≡ at (row_of t.now) j)) }
{
    !s.same(i, t, j)
}
