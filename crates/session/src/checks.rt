// What a call looks at before it touches the file.
ghost use Rattle.session.specs.Rules.{Ranged, RuleChecked, Turns};

use formula::equation::Equation;
use order::ReductionOrder;
use order::orient::orient;
use reduction::oriented::Oriented;
use refusal::Refusal;
use signature::signature::Signature;
use terms::side::Side;

pub fn check_number(number: u32) -> Result<u16, Refusal>
    ensures { Ranged number result }
{
    match u16::try_from(number) {
        Ok(number @ 1..=30_000) => Ok(number),
        _ => Err(Refusal::NumberRange),
    }
}

pub fn check_rule(equation: &Equation) -> Result<(), Refusal>
    ensures { RuleChecked equation.now result }
{
    if !equation.is_rule() {
        return Err(Refusal::RoleOrSign);
    }
    Ok(())
}

pub fn turn<O: ReductionOrder>(
    order: &O,
    signature: &Signature,
    equation: &Equation,
) -> Result<Oriented, Refusal>
    ensures { Turns (O.ReductionOrder.above order.now signature.now) equation.now result }
{
    // Three arms, each an answer of its own.
    match orient(order, signature, &equation.left, &equation.right) {
        Some(Side::Left) => Ok(Oriented {
            higher: equation.left,
            lower: equation.right,
        }),
        Some(Side::Right) => Ok(Oriented {
            higher: equation.right,
            lower: equation.left,
        }),
        None => Err(Refusal::Unordered),
    }
}
