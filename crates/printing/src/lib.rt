// How refusals, formulas and numbers are printed.
#![tactic(auto)]

ghost use Rattle.std.specs.Prelude.{◌≡◌, ◌⊎◌, Ok, Some, None, IfOk, IfSome, MatchResult};
ghost use Rattle.sides.specs.Rules.{Texts};

use formula::equation::Equation;
use refusal::Refusal;
use shown::Equality;
use sides::{Fault, Sides, write_sides};
use signature::signature::Signature;
use std::io;

pub mod shown;
#[cfg(test)]
mod tests;

pub fn print_refusal(rt: &HostRuntime, refusal: Refusal) -> io::Result<()> {
    let number = refusal.number();
    println!(rt; "  refused {number}: {refusal}")
}

// What there is to show; a refusal is printed in its place.
pub fn or_refusal<T: Drop>(rt: &HostRuntime, written: Result<T, Fault>) -> io::Result<Option<T>>
    ensures { MatchResult written (λ it. result ≡ Ok (Some it)) (λ _. IfOk result (λ o. o ≡ None)) }
{
    match written {
        Ok(it) => Ok(Some(it)),
        Err(Fault::Refused(refusal)) => {
            print_refusal(rt, refusal)?;
            Ok(None)
        }
        Err(Fault::NoMemory) => Err(io::Error::from(io::ErrorKind::OutOfMemory)),
    }
}

// Both sides as text; a refusal is printed in their place.
pub fn sides_of(
    rt: &HostRuntime,
    signature: &Signature,
    equation: &Equation,
) -> io::Result<Option<Sides>>
    ensures { IfOk result (λ o. IfSome o (λ s. Texts signature.now equation.now s)) }
{
    or_refusal(rt, write_sides(rt.alloc(), signature, equation))
}

// Prints both sides, and says how many cells of a bank they share: none where a refusal is printed in their place.
pub fn print_sides(
    rt: &HostRuntime,
    signature: &Signature,
    equation: &Equation,
) -> io::Result<usize>
    ensures { IfOk result (λ n. (n ≡ 0) ⊎ ((s : Sides) × (Texts signature.now equation.now s) × (n ≡ s.cells))) }
{
    let Some(sides) = sides_of(rt, signature, equation)? else {
        return Ok(0);
    };
    rt.println(Equality {
        sides: &sides,
        sign: equation.sign,
    })?;
    Ok(sides.cells)
}
