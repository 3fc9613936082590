ghost use Rattle.formula.specs.Laying.{LaidOut};

use super::TooLarge;
use crate::symbol::symbol_named;
use crate::variables::{Span, Variables};
use lexer::scanner::next_token;
use lexer::token::Kind;
use row::Row;
use signature::signature::Signature;
use terms::pattern::Node;

// The most nodes that a side has.
pub const LARGEST: usize = 32;

// The side that begins at a place, and the place of the sign or the end behind it.
pub fn read_side(
    signature: &Signature,
    text: &[u8],
    at: usize,
    variables: &mut Variables,
) -> Result<(Row<Node, LARGEST>, usize), TooLarge>
    ensures { LaidOut signature.now text.now at variables.old variables.new result }
{
    let mut side = Row::new(Node::Var(0));
    // By place: the sign that ends a side is left to be read again.
    let mut end = at;
    while let Some(token) = next_token(text, end) {
        let place = token.place;
        let too_large = TooLarge { place };
        match token.kind {
            Kind::Equal | Kind::Unequal => return Ok((side, end)),
            Kind::Word => {
                let node = symbol_named(signature, token.bytes).ok_or(too_large)?;
                side.push(node).or(Err(too_large))?;
            }
            Kind::Variable => {
                let len = token.bytes.len();
                let number = variables
                    .number(text, Span { place, len })
                    .ok_or(too_large)?;
                side.push(Node::Var(number)).or(Err(too_large))?;
            }
            _ => {}
        }
        end = token.end();
    }
    Ok((side, end))
}
