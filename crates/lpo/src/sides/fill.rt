// All pairs of subterms, the later ones first: an argument stands behind its head.
ghost use Rattle.std.specs.Prelude.{◌≡◌, ◌+◌, ◌*◌, ◌<◌, length, Decides};
ghost use Rattle.terms.specs.Patterns.{term_of};
ghost use Rattle.rewriting.specs.Lpo.{Lpo};
ghost use Rattle.subterms.specs.Places.{at};
ghost use Rattle.subterms.specs.Rows.{row_of};
ghost use Rattle.lpo.specs.Seen.{Seen, up, low};

use super::{Compared, Sides, Table};
use subterms::Subterms;
use terms::pattern::Pattern;

impl<'a> Sides<'a> {
    pub fn new(upper: &'a Subterms, lower: &'a Subterms) -> Sides<'a>
        ensures upper { up result ≡ row_of upper.now }
        ensures lower { low result ≡ row_of lower.now }
        ensures seen { Seen result 0 }
    {
        let mut sides = Sides {
            upper,
            lower,
            seen: Table {
                rows: [[Compared::Neither; 32]; 32],
            },
        };
        for p in (0..upper.nodes().len()).rev() {
            sides.fill_row(p);
        }
        sides
    }

    // The pairs of the upper term's place p.
    fn fill_row(&mut self, p: usize)
        requires { (p < length (up self.old)) × (Seen self.old (32 * p + 32)) }
        ensures upper { self.new.upper ≡ self.old.upper }
        ensures lower { self.new.lower ≡ self.old.lower }
        ensures seen { Seen self.new (32 * p) }
    {
        for q in (0..self.lower.nodes().len()).rev() {
            self.seen.rows[p][q] = self.compare(p, q);
        }
    }
}

// Whether s is above t.
pub fn is_above(s: &Pattern, t: &Pattern) -> bool
    ensures { Decides result (Lpo (term_of s.now) (term_of t.now)) }
{
    Sides::new(&Subterms::new(s), &Subterms::new(t)).pair(0, 0) == Compared::Above
}
