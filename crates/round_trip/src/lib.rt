// Reading what was written: the text of two terms reads back as them, but for variable numbers.
#![tactic(auto)]

ghost use Rattle.formula.specs.Outcomes.{Outcome};
ghost use Rattle.round_trip.specs.RoundTrip.{RoundTrip};

use formula::equation::Equation;
use formula::reading::read_formula;
use refusal::Refusal;
use signature::signature::Signature;

// Reads one formula, and promises of every text that the writer makes of two terms within the reader's limits that it reads back.
pub fn read(signature: &Signature, text: &[u8]) -> Result<Equation, Refusal>
    ensures outcome { Outcome signature.now text.now result }
    ensures round_trip { RoundTrip signature.now }
{
    read_formula(signature, text)
}
