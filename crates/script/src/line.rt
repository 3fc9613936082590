// A line of the script, read into its call.
ghost use Rattle.std.specs.Prelude.{◌≡◌, ℕ, List, MatchResult};
ghost use Rattle.script.specs.Says.{FirstLine, Says, Fields, Form, Leads, Only, TwoNumbers, NumberText, NumbersText, word_of};

use crate::call::{Call, Fault, Goal, Index, Limits, Order, Word};
use crate::text::quoted;
use fields::{Field, cut, number};
use std::alloc::Global;

// The first line of a script, without its line feed, and the script after it. The last line may lack its line feed.
pub fn first_line(script: &[u8]) -> Field<'_>
    ensures { FirstLine script.now result.bytes.now result.after.now }
{
    cut(script, b'\n').unwrap_or(Field {
        bytes: script,
        after: &[],
    })
}

// The call that the line says.
pub fn parse(heap: Global, line: &[u8]) -> Result<Call, Fault>
    ensures { MatchResult result (λ c. Says c line.now) (λ e. e ≡ Fault.Malformed → (c : Call) → Says c line.now → ⊥) }
{
    match cut(line, b' ') {
        Some(field) => fields_of(heap, Word::try_from(field.bytes)?, field.after),
        None if line == b"release".as_slice() => Ok(Call::Release),
        None => Err(Fault::Malformed),
    }
}

// The call of the word, with these fields.
fn fields_of(heap: Global, word: Word, rest: &[u8]) -> Result<Call, Fault>
    ensures { MatchResult result (λ c. (word_of c ≡ word) × Fields c rest.now) (λ e. e ≡ Fault.Malformed → Form word rest.now → ⊥) }
{
    match word {
        Word::Signature => Ok(Call::Signature(quoted(heap, rest)?)),
        Word::Open => open_of(rest),
        Word::Add => add_of(heap, rest),
        Word::Remove => Ok(Call::Remove(lone_number(rest)?)),
        Word::Audit => Ok(Call::Audit(limits_of(rest)?)),
        Word::Release => Err(Fault::Malformed),
        Word::Simplify => Ok(Call::Simplify(goal_of(heap, rest)?)),
        Word::Judge => Ok(Call::Judge(goal_of(heap, rest)?)),
        Word::Read => Ok(Call::Read(quoted(heap, rest)?)),
    }
}

fn open_of(rest: &[u8]) -> Result<Call, Fault>
    ensures { MatchResult result (λ c. (word_of c ≡ Word.Open) × Fields c rest.now) (λ e. Form Word.Open rest.now → ⊥) }
{
    let (number, rest) = leading(rest)?;
    let words = cut(rest, b' ').ok_or(Fault::Malformed)?;
    let order = Order::try_from(words.bytes)?;
    let index = Index::try_from(words.after)?;
    Ok(Call::Open {
        number,
        order,
        index,
    })
}

fn add_of(heap: Global, rest: &[u8]) -> Result<Call, Fault>
    ensures { MatchResult result (λ c. (word_of c ≡ Word.Add) × Fields c rest.now) (λ e. e ≡ Fault.Malformed → Form Word.Add rest.now → ⊥) }
{
    let (number, rest) = leading(rest)?;
    let formula = quoted(heap, rest)?;
    Ok(Call::Add { number, formula })
}

fn goal_of(heap: Global, rest: &[u8]) -> Result<Goal, Fault>
    ensures { MatchResult result (λ g. NumbersText g.limits g.formula.items rest.now) (λ e. e ≡ Fault.Malformed → Form Word.Judge rest.now → ⊥) }
{
    let (bank, rest) = leading(rest)?;
    let (trace, rest) = leading(rest)?;
    let formula = quoted(heap, rest)?;
    let limits = Limits { bank, trace };
    Ok(Goal { limits, formula })
}

fn limits_of(rest: &[u8]) -> Result<Limits, Fault>
    ensures { MatchResult result (λ l. TwoNumbers l rest.now) (λ _. (l : Limits) → TwoNumbers l rest.now → ⊥) }
{
    let (bank, rest) = leading(rest)?;
    let trace = lone_number(rest)?;
    Ok(Limits { bank, trace })
}

// The number that leads a text, and the text after the space.
fn leading(text: &[u8]) -> Result<(u32, &[u8]), Fault>
    ensures { MatchResult result (λ x. Leads x.0 text.now x.1.now) (λ _. (n : ℕ) (more : List ℕ) → Leads n text.now more → ⊥) }
{
    let field = cut(text, b' ').ok_or(Fault::Malformed)?;
    let number = lone_number(field.bytes)?;
    Ok((number, field.after))
}

fn lone_number(text: &[u8]) -> Result<u32, Fault>
    ensures { MatchResult result (λ n. Only n text.now) (λ _. (n : ℕ) → Only n text.now → ⊥) }
{
    number(text, 999_999_999).ok_or(Fault::Malformed)
}
