ghost use Rattle.std.specs.Prelude.{◌≡◌, ◌+◌, ◌<◌, ◌≤◌, [], ◌∷◌, length, drop, None};
ghost use Rattle.row.specs.Items.{items};
ghost use Rattle.lexer.specs.Tokens.{tokens_from};
ghost use Rattle.lexer.specs.Next.{lexeme_of};
ghost use Rattle.formula.specs.Scans.{low, bumped as one_more, arity_in, at_comma, at_close, noted_at_close, stacked, noted, scan};
ghost use Rattle.formula.specs.Stacks.{stack_of};

use super::Uses;
use crate::frame::Frame;
use crate::symbol::symbol_named;
use crate::tokens::opens;
use lexer::scanner::next_token;
use lexer::token::{Kind, Token};
use row::Row;
use signature::signature::Signature;
use terms::pattern::Node;

// The arity of a symbol, unless no line has its name.
fn arity_of(symbol: Option<Node>) -> Option<u8>
    ensures { result ≡ arity_in symbol }
{
    match symbol {
        Some(Node::App { arity, .. }) => Some(arity),
        _ => None,
    }
}

// One argument more; five are as wrong as any more.
fn bumped(args: u8) -> u8
    ensures { result ≡ one_more args }
{
    if args < 5 { args + 1 } else { args }
}

impl Uses {
    fn new() -> Uses
        ensures stack { items result.frames ≡ [] }
        ensures lowest { result.lowest ≡ None }
    {
        Uses {
            frames: Row::new(Frame {
                place: 0,
                arity: 0,
                args: 0,
            }),
            lowest: None,
        }
    }

    // A symbol is misused at a place.
    fn note(&mut self, place: usize)
        ensures same { self.new.frames ≡ self.old.frames }
        ensures noted { self.new.lowest ≡ low self.old.lowest place }
    {
        self.lowest = Some(self.lowest.map_or(place, |lowest| lowest.min(place)));
    }

    fn open(&mut self, frame: Frame)
        requires { length (items self.old.frames) < 32768 }
        ensures stack { stack_of self.new ≡ frame ∷ stack_of self.old }
        ensures lowest { self.new.lowest ≡ self.old.lowest }
        ensures depth { length (items self.new.frames) ≡ length (items self.old.frames) + 1 }
    {
        self.frames.push(frame).unwrap();
    }

    fn comma(&mut self)
        ensures stack { stack_of self.new ≡ at_comma (stack_of self.old) }
        ensures lowest { self.new.lowest ≡ self.old.lowest }
        ensures depth { length (items self.new.frames) ≡ length (items self.old.frames) }
    {
        if let Some(frame) = self.frames.pop() {
            let args = bumped(frame.args);
            self.open(Frame { args, ..frame });
        }
    }

    fn close(&mut self)
        ensures stack { stack_of self.new ≡ at_close (stack_of self.old) }
        ensures lowest { self.new.lowest ≡ noted_at_close (stack_of self.old) self.old.lowest }
        ensures depth { length (items self.new.frames) ≤ length (items self.old.frames) }
    {
        if let Some(frame) = self.frames.pop() {
            if frame.args != frame.arity {
                self.note(frame.place as usize);
            }
        }
    }

    // One token more; `opened` says whether a parenthesis opens behind it.
    fn see(&mut self, signature: &Signature, token: &Token<'_>, opened: bool)
        requires room { length (items self.old.frames) < 32768 }
        requires near { token.now.place < 65536 }
        ensures stack { stack_of self.new ≡ stacked signature.now (stack_of self.old) (lexeme_of token.now) opened }
        ensures lowest { self.new.lowest ≡ noted signature.now (stack_of self.old) self.old.lowest (lexeme_of token.now) opened }
        ensures depth { length (items self.new.frames) ≤ length (items self.old.frames) + 1 }
    {
        match token.kind {
            Kind::Word => {
                let arity = arity_of(symbol_named(signature, token.bytes));
                if opened {
                    self.open(Frame {
                        place: token.place as u16,
                        arity: arity.unwrap_or(0),
                        args: 1,
                    });
                } else if arity != Some(0) {
                    self.note(token.place);
                }
            }
            Kind::Comma => self.comma(),
            Kind::Close => self.close(),
            _ => {}
        }
    }
}

// The lowest place of a symbol that is not the signature's, or has another number of arguments than its arity.
pub fn first_misused(signature: &Signature, text: &[u8], at: usize) -> Option<usize>
    requires { length text.now ≤ 32768 }
    ensures { result ≡ scan signature.now [] None (tokens_from (drop at text.now) at) }
{
    let mut uses = Uses::new();
    // By place: from behind a token, the next one is looked at as well.
    let mut place = at;
    while let Some(token) = next_token(text, place) {
        place = token.end();
        uses.see(signature, &token, opens(text, place));
    }
    uses.lowest
}
