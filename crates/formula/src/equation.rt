// A formula as it is read.
ghost use Rattle.std.specs.Prelude.{◌≡◌, Some};
ghost use Rattle.formula.specs.Roles.{rule, goal};
ghost use Rattle.formula.specs.Words.{role_word, sign_word};

use std::fmt;
use terms::pattern::Pattern;

#[derive(Clone, Copy, PartialEq, Eq, Debug)]
pub enum Role {
    Axiom,
    Hypothesis,
    NegatedConjecture,
    Other,
}

impl fmt::Display for Role {
    ghost output = { λ r. Some (role_word r) };

    fn fmt<W: fmt::Write>(&self, f: &mut fmt::Formatter<W>) -> fmt::Result {
        f.write_str(match self {
            Role::Axiom => "axiom",
            Role::Hypothesis => "hypothesis",
            Role::NegatedConjecture => "negated conjecture",
            Role::Other => "another role",
        })
    }
}

#[derive(Clone, Copy, PartialEq, Eq, Debug)]
pub enum Sign {
    Equal,
    Unequal,
}

impl fmt::Display for Sign {
    ghost output = { λ s. Some (sign_word s) };

    fn fmt<W: fmt::Write>(&self, f: &mut fmt::Formatter<W>) -> fmt::Result {
        f.write_str(match self {
            Sign::Equal => "=",
            Sign::Unequal => "!=",
        })
    }
}

// Two sides over one numbering of their variables.
#[derive(Clone, Copy)]
pub struct Equation {
    pub role: Role,
    pub sign: Sign,
    pub left: Pattern,
    pub right: Pattern,
    pub variables: usize,
}

impl Equation {
    // Axioms and hypotheses with = are rules.
    pub fn is_rule(&self) -> bool
        ensures { result ≡ rule self.now.role self.now.sign }
    {
        matches!(
            (self.role, self.sign),
            (Role::Axiom | Role::Hypothesis, Sign::Equal)
        )
    }

    // Negated conjectures with != are goals.
    pub fn is_goal(&self) -> bool
        ensures { result ≡ goal self.now.role self.now.sign }
    {
        self.role == Role::NegatedConjecture && self.sign == Sign::Unequal
    }
}
