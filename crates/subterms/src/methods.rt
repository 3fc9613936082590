ghost use Rattle.std.specs.Prelude.{◌≡◌, ◌+◌, ◌<◌, ◌≤◌, [], length, Decides, MatchOption};
ghost use Rattle.terms.specs.Term.{width, cells};
ghost use Rattle.terms.specs.Preorder.{Whole, preorder};
ghost use Rattle.terms.specs.Patterns.{nodes_of};
ghost use Rattle.rewriting.specs.Replace.{args};
ghost use Rattle.subterms.specs.Places.{at, arguments};
ghost use Rattle.subterms.specs.Rows.{row_of, places, ArgumentsAt};

use super::{Arguments, Subterms};
use terms::pattern::{Node, Pattern};

impl Subterms {
    // The subterms of a pattern.
    pub fn new(pattern: &Pattern) -> Subterms
        ensures { row_of result ≡ nodes_of pattern.now }
    {
        let nodes = pattern.nodes();
        let mut ends = [0; 32];
        // By index: `array::from_fn` also fills the places past the row, and cost the Knuth-Bendix order two fifths more.
        for p in 0..nodes.len() {
            ends[p] = end(nodes, p);
        }
        Subterms {
            pattern: *pattern,
            ends,
        }
    }

    // The pattern's nodes in preorder.
    pub fn nodes(&self) -> &[Node]
        ensures { result.now ≡ row_of self.now }
    {
        self.pattern.nodes()
    }

    // The nodes of the subterm at place p, or none past the row.
    pub fn subterm(&self, p: usize) -> &[Node]
        ensures there { p < length (row_of self.now) → result.now ≡ preorder (at (row_of self.now) p) }
        ensures past { length (row_of self.now) ≤ p → result.now ≡ [] }
    {
        let nodes = self.nodes();
        if p < nodes.len() {
            &nodes[p..self.ends[p]]
        } else {
            &[]
        }
    }

    // Where the subterm at place p ends, if there is one.
    pub fn end(&self, p: usize) -> Option<usize>
        ensures { MatchOption result (length (row_of self.now) ≤ p) (λ e. (p < length (row_of self.now)) × (e ≡ p + cells (at (row_of self.now) p))) }
    {
        if p < self.nodes().len() {
            Some(self.ends[p])
        } else {
            None
        }
    }

    // How many arguments the subterm at place p has.
    pub fn arity(&self, p: usize) -> usize
        ensures { result ≡ width (args (at (row_of self.now) p)) }
    {
        match self.nodes().get(p) {
            Some(node) => node.arity(),
            None => 0,
        }
    }

    // The places of the arguments of the subterm at place p.
    pub fn arguments(&self, p: usize) -> Arguments<'_>
        ensures { ArgumentsAt (row_of self.now) p (places result) }
    {
        Arguments {
            ends: &self.ends,
            next: p.saturating_add(1),
            left: self.arity(p),
        }
    }

    // Whether the subterms at two places are equal.
    pub fn same(&self, p: usize, other: &Subterms, q: usize) -> bool
        ensures { Decides result (p < length (row_of self.now) × q < length (row_of other.now) × (at (row_of self.now) p ≡ at (row_of other.now) q)) }
    {
        if p >= self.nodes().len() || q >= other.nodes().len() {
            return false;
        }
        are_equal(self.subterm(p), other.subterm(q))
    }
}

// Where the subterm at place p of the row ends: so many terms are open until then.
fn end(row: &[Node], p: usize) -> usize
    requires { Whole row.now }
    ensures { p < length row.now → result ≡ p + cells (at row.now p) }
{
    // By place, since the place where the walk stops is the answer.
    let mut open: usize = 1;
    for i in p..row.len() {
        if open == 0 {
            return i;
        }
        // A copy, whose arity is picked without a branch.
        let node = row[i];
        open = open - 1 + node.arity();
    }
    row.len()
}

// Whether two rows are equal. `==` on slices compares by groups, which is too large to be inlined for rows as short as these.
fn are_equal(s: &[Node], t: &[Node]) -> bool
    ensures { Decides result (s.now ≡ t.now) }
{
    s.len() == t.len() && s.iter().zip(t).all(|(m, n)| m == n)
}
