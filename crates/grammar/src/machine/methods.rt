ghost use Rattle.std.specs.Prelude.{◌≡◌, ◌+◌, ◌^◌, ◌<◌};
ghost use Rattle.lexer.specs.Next.{lexeme_of};
ghost use Rattle.grammar.specs.Outcomes.{Walked};
ghost use Rattle.grammar.specs.Machine.{spot, term_start, inside as inside_of, outside as outside_of, behind as behind_of, next as next_of, is_done, depth_of};

use super::{Spot, State};
use crate::part::Fault;
use lexer::scanner::next_token;
use lexer::token::{Kind, Token};
use terms::side::Side;

impl Spot {
    // The left side of a literal.
    fn left(wrapped: bool) -> Spot
        ensures { result ≡ spot 0 Side.Left wrapped }
    {
        Spot {
            depth: 0,
            side: Side::Left,
            wrapped,
        }
    }

    fn start(self, kind: Kind) -> Option<State>
        ensures { result ≡ term_start self kind }
    {
        match kind {
            Kind::Variable => Some(State::Closed(self)),
            Kind::Word => Some(State::Named(self)),
            _ => None,
        }
    }

    fn inside(self, kind: Kind) -> Option<State>
        requires { 0 < self.depth }
        ensures { result ≡ inside_of self kind }
    {
        match kind {
            Kind::Comma => Some(State::Term(self)),
            Kind::Close => {
                let depth = self.depth - 1;
                Some(State::Closed(Spot { depth, ..self }))
            }
            _ => None,
        }
    }

    fn outside(self, kind: Kind) -> Option<State>
        ensures { result ≡ outside_of self kind }
    {
        match (self.side, kind) {
            (Side::Right, Kind::Close) if self.wrapped => Some(State::Unwrapped),
            (Side::Right, Kind::Close) => Some(State::Ended),
            (Side::Left, Kind::Equal | Kind::Unequal) => Some(State::Term(Spot {
                depth: 0,
                side: Side::Right,
                ..self
            })),
            _ => None,
        }
    }

    fn behind(self, kind: Kind) -> Option<State>
        ensures { result ≡ behind_of self kind }
    {
        if self.depth > 0 {
            self.inside(kind)
        } else {
            self.outside(kind)
        }
    }
}

impl State {
    pub fn is_done(&self) -> bool
        ensures { result ≡ is_done self.now }
    {
        matches!(*self, State::Done)
    }

    // The state behind one more token, or None where the token cannot follow.
    fn next(self, token: &Token<'_>) -> Option<State>
        requires { depth_of self + 1 < 2 ^ 64 }
        ensures { result ≡ next_of self (lexeme_of token.now) }
    {
        match (self, token.kind) {
            (State::Start, Kind::Word) if token.bytes == b"cnf".as_slice() => Some(State::Opening),
            (State::Opening, Kind::Open) => Some(State::Name),
            (State::Name, Kind::Word) => Some(State::NameComma),
            (State::NameComma, Kind::Comma) => Some(State::Role),
            (State::Role, Kind::Word) => Some(State::RoleComma),
            (State::RoleComma, Kind::Comma) => Some(State::Body),
            (State::Body, Kind::Open) => Some(State::Term(Spot::left(true))),
            (State::Body, kind) => Spot::left(false).start(kind),
            (State::Term(spot), kind) => spot.start(kind),
            (State::Named(spot), Kind::Open) => {
                let depth = spot.depth + 1;
                Some(State::Term(Spot { depth, ..spot }))
            }
            (State::Named(spot) | State::Closed(spot), kind) => spot.behind(kind),
            (State::Unwrapped, Kind::Close) => Some(State::Ended),
            (State::Ended, Kind::Dot) => Some(State::Done),
            _ => None,
        }
    }
}

// The place behind the formula that begins at `at`.
pub fn formula_end(text: &[u8], at: usize) -> Result<usize, Fault>
    ensures { Walked text.now at result }
{
    let mut state = State::Start;
    // By place: where the last token ends is the answer.
    let mut end = at;
    while !state.is_done() {
        let token = next_token(text, end).ok_or(Fault { place: text.len() })?;
        state = state.next(&token).ok_or(Fault { place: token.place })?;
        end = token.end();
    }
    Ok(end)
}
