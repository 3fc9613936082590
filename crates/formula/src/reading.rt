// Reading one formula.
ghost use Rattle.std.specs.Prelude.{◌≡◌, drop};
ghost use Rattle.lexer.specs.Tokens.{tokens_from};
ghost use Rattle.formula.specs.Roles.{role_named, role_first, sign_of, sign_first};
ghost use Rattle.formula.specs.Outcomes.{Outcome};

use crate::equation::{Equation, Role, Sign};
use crate::side::read_side;
use crate::tokens::skip_tokens;
use crate::uses::first_misused;
use crate::variables::Variables;
use grammar::check::check_formula;
use lexer::scanner::next_token;
use lexer::token::{Kind, Token};
use refusal::Refusal;
use signature::signature::Signature;
use terms::pattern::Pattern;

// The role that a word names.
pub fn role_named(word: &[u8]) -> Role
    ensures { result ≡ role_named word.now }
{
    match word {
        b"axiom" => Role::Axiom,
        b"hypothesis" => Role::Hypothesis,
        b"negated_conjecture" => Role::NegatedConjecture,
        _ => Role::Other,
    }
}

fn role_at(text: &[u8], at: usize) -> Role
    ensures { result ≡ role_first (tokens_from (drop at text.now) at) }
{
    match next_token(text, at) {
        Some(token) => role_named(token.bytes),
        None => Role::Other,
    }
}

fn sign_at(text: &[u8], at: usize) -> Sign
    ensures { result ≡ sign_first (tokens_from (drop at text.now) at) }
{
    match next_token(text, at) {
        Some(
            Token {
                kind: Kind::Equal,
                ..
            },
        ) => Sign::Equal,
        _ => Sign::Unequal,
    }
}

// Reads a text as one formula over a signature. Each check goes over the whole formula before the next: its length and grammar,
// then its symbols, then the size of its sides.
pub fn read_formula(signature: &Signature, text: &[u8]) -> Result<Equation, Refusal>
    ensures { Outcome signature.now text.now result }
{
    check_formula(text)?;
    let role = role_at(text, skip_tokens(text, 0, 4));
    let body = skip_tokens(text, 0, 6);
    if let Some(place) = first_misused(signature, text, body) {
        return Err(Refusal::Symbol(place));
    }
    let mut variables = Variables::new();
    let (left, sign_place) = read_side(signature, text, body, &mut variables)?;
    let sign = sign_at(text, sign_place);
    let (right, _) = read_side(
        signature,
        text,
        skip_tokens(text, sign_place, 1),
        &mut variables,
    )?;
    // Neither refusal below is ever given: the rows that were read are whole.
    let left = Pattern::new(left.as_slice()).ok_or(Refusal::Size(body))?;
    let right = Pattern::new(right.as_slice()).ok_or(Refusal::Size(body))?;
    Ok(Equation {
        role,
        sign,
        left,
        right,
        variables: variables.count(),
    })
}
