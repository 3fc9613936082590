// The patterns of a problem's rules.
ghost use Rattle.offers.specs.Rules.{Higher, Step, Gathered};

use crate::Patterns;
use formula::equation::Equation;
use sides::higher_sides;
use signature::signature::Signature;
use terms::pattern::Pattern;
use terms::side::Side;

// What is rewritten by the rules of a problem, and how many rules found no room.
#[derive(Drop)]
pub struct Rules {
    pub patterns: Patterns,
    pub left_out: usize,
}

// The higher sides of the rules among the formulas, in their order.
pub fn gather(signature: &Signature, formulas: &[Equation]) -> Rules
    ensures { Gathered signature.now formulas.now result }
{
    let mut patterns = Patterns::new();
    let mut left_out = 0;
    for formula in formulas {
        if !add_higher(signature, formula, &mut patterns) {
            left_out += 1;
        }
    }
    Rules { patterns, left_out }
}

// Whether there is room for what the formula gives, if it gives anything.
fn add_higher(signature: &Signature, formula: &Equation, patterns: &mut Patterns) -> bool
    ensures { Step signature.now formula.now patterns.old patterns.new result }
{
    match higher_side(signature, formula) {
        Some(pattern) => patterns.add(&pattern),
        None => true,
    }
}

// The side that is above the other in the Knuth-Bendix order, of a formula that may become a rule.
pub fn higher_side(signature: &Signature, formula: &Equation) -> Option<Pattern>
    ensures { Higher signature.now formula.now result }
{
    match higher_sides(signature, formula)?.knuth_bendix? {
        Side::Left => Some(formula.left),
        Side::Right => Some(formula.right),
    }
}
