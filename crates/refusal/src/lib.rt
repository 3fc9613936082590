// Every refusal of every call: one enum, one number for each case, and the byte or line that some carry.
#![tactic(auto)]

ghost use Rattle.std.specs.Prelude.{◌≡◌};
ghost use Rattle.refusal.specs.Table.{number_of, place_of};

use std::fmt;

#[derive(Clone, Copy, PartialEq, Eq, Debug)]
pub enum Refusal {
    Grammar(usize),
    Symbol(usize),
    Size(usize),
    RoleOrSign,
    NumberRange,
    NumberTaken,
    CapacityReached,
    Unordered,
    Sealed,
    NumberAbsent,
    NotSealed,
    Limits,
    GoalTooLarge,
    BufferTooShort,
    SignatureLine(usize),
    BankRules,
}

impl Refusal {
    // The refusal's number in the table.
    pub fn number(&self) -> u8
        ensures { result ≡ number_of self.now }
    {
        match *self {
            Refusal::Grammar(_) => 1,
            Refusal::Symbol(_) => 2,
            Refusal::Size(_) => 3,
            Refusal::RoleOrSign => 4,
            Refusal::NumberRange => 5,
            Refusal::NumberTaken => 6,
            Refusal::CapacityReached => 7,
            Refusal::Unordered => 8,
            Refusal::Sealed => 9,
            Refusal::NumberAbsent => 10,
            Refusal::NotSealed => 11,
            Refusal::Limits => 12,
            Refusal::GoalTooLarge => 13,
            Refusal::BufferTooShort => 14,
            Refusal::SignatureLine(_) => 15,
            Refusal::BankRules => 16,
        }
    }

    // The byte, from 0, or the line, from 1, that the refusal carries.
    pub fn place(&self) -> Option<usize>
        ensures { result ≡ place_of self.now }
    {
        match *self {
            Refusal::Grammar(byte) | Refusal::Symbol(byte) | Refusal::Size(byte) => Some(byte),
            Refusal::SignatureLine(line) => Some(line),
            _ => None,
        }
    }

    // What the refusal means, in words.
    fn meaning(&self) -> &'static str {
        match *self {
            Refusal::Grammar(_) => "the text breaks the grammar here",
            Refusal::Symbol(_) => "this symbol is not in the signature, or has another arity",
            Refusal::Size(_) =>
                "a side has more than 32 cells, or the formula more than 16 variables",
            Refusal::RoleOrSign => "this call takes another role or sign",
            Refusal::NumberRange => "equation numbers go from 1 to 30,000",
            Refusal::NumberTaken => "the number is already stored",
            Refusal::CapacityReached => "the index is full",
            Refusal::Unordered => "neither side is above the other",
            Refusal::Sealed => "the session is sealed",
            Refusal::NumberAbsent => "the number is not stored",
            Refusal::NotSealed => "the session is not sealed, or the seal is another session's",
            Refusal::Limits => "a bank, trace, list, buffer or text is outside its limits",
            Refusal::GoalTooLarge => "the goal's terms do not fit into the bank",
            Refusal::BufferTooShort => "the text is longer than the buffer",
            Refusal::SignatureLine(_) =>
                "this signature line is bad, or there are too many or none",
            Refusal::BankRules => "the bank breaks its rules, or the cell is not counted",
        }
    }
}

impl fmt::Display for Refusal {
    fn fmt<W: fmt::Write>(&self, f: &mut fmt::Formatter<W>) -> fmt::Result {
        f.write_str(self.meaning())
    }
}
