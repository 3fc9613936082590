// One pair of subterms, from the pairs of their arguments.
ghost use Rattle.std.specs.Prelude.{◌≡◌, Decides};
ghost use Rattle.terms.specs.Term.{width};
ghost use Rattle.rewriting.specs.Replace.{args};
ghost use Rattle.rewriting.specs.Lpo.{LpoSome, LpoAll};
ghost use Rattle.subterms.specs.Places.{at};
ghost use Rattle.lpo.specs.Seen.{Says, SaysLex, SaysHeads, Ready, seen_at, up, low};

use super::{Compared, Sides};
use terms::pattern::Node;

impl<'a> Sides<'a> {
    // Needs what is seen of all later pairs.
    pub fn compare(&self, p: usize, q: usize) -> Compared
        requires { Ready self.now p q }
        ensures { Says result (at (up self.now) p) (at (low self.now) q) }
    {
        if self.some_argument(p, q) {
            return Compared::Above;
        }
        match self.heads(p, q) {
            Compared::Above => {
                if self.each_argument(p, q) {
                    Compared::Above
                } else {
                    Compared::Neither
                }
            }
            heads => heads,
        }
    }

    // Whether an argument of the upper term equals the lower one or is above it.
    fn some_argument(&self, p: usize, q: usize) -> bool
        requires { Ready self.now p q }
        ensures { Decides result (LpoSome (args (at (up self.now) p)) (at (low self.now) q)) }
    {
        self.upper
            .arguments(p)
            .any(|i| self.pair(i, q) != Compared::Neither)
    }

    // Whether the upper term is above each argument of the lower one.
    fn each_argument(&self, p: usize, q: usize) -> bool
        requires { Ready self.now p q }
        ensures { Decides result (LpoAll (at (up self.now) p) (args (at (low self.now) q))) }
    {
        self.lower
            .arguments(q)
            .all(|j| self.pair(p, j) == Compared::Above)
    }

    // The heads, and the arguments of equal heads.
    fn heads(&self, p: usize, q: usize) -> Compared
        requires { Ready self.now p q }
        ensures { SaysHeads result (at (up self.now) p) (at (low self.now) q) }
    {
        match (self.upper.nodes()[p], self.lower.nodes()[q]) {
            (Node::Var(x), Node::Var(y)) => {
                if x == y {
                    Compared::Equal
                } else {
                    Compared::Neither
                }
            }
            (
                Node::App {
                    symbol: f,
                    arity: a,
                },
                Node::App {
                    symbol: g,
                    arity: b,
                },
            ) => {
                if g < f {
                    Compared::Above
                } else if f == g && a == b {
                    self.arguments(p, q)
                } else {
                    Compared::Neither
                }
            }
            (Node::Var(_), Node::App { .. }) => Compared::Neither,
            (Node::App { .. }, Node::Var(_)) => Compared::Neither,
        }
    }

    // The first arguments that differ.
    fn arguments(&self, p: usize, q: usize) -> Compared
        requires { (Ready self.now p q) × (width (args (at (up self.now) p)) ≡ width (args (at (low self.now) q))) }
        ensures { SaysLex result (args (at (up self.now) p)) (args (at (low self.now) q)) }
    {
        self.upper
            .arguments(p)
            .zip(self.lower.arguments(q))
            .map(|(i, j)| self.pair(i, j))
            .find(|pair| *pair != Compared::Equal)
            .unwrap_or(Compared::Equal)
    }

    // What is seen of a pair: nothing where there is none.
    pub fn pair(&self, i: usize, j: usize) -> Compared
        ensures { result ≡ seen_at self.now i j }
    {
        match self.seen.rows.get(i) {
            Some(row) => row.get(j).copied().unwrap_or(Compared::Neither),
            None => Compared::Neither,
        }
    }
}
