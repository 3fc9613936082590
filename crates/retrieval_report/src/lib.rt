// What is printed of the indexes: for each subterm of a goal, which rules a discrimination tree offers and which of them stay.
#![tactic(auto)]

use bank::cell::Cell;
use enter::enter;
use formula::equation::{Equation, Role};
use lent_list::Count;
use offers::ask::ask;
use offers::gather::{Rules, gather};
use offers::goal::enter_sides;
use offers::{Offer, Patterns};
use printing::shown::{Listed, Shown};
use printing::{or_refusal, print_refusal, print_sides};
use refusal::Refusal;
use row::Row;
use sides::Fault;
use signature::signature::Signature;
use std::io;
use terms::pattern::Pattern;
use writer::write_term;

pub fn print_retrieval(
    rt: &HostRuntime,
    signature: &Signature,
    formulas: &[Equation],
) -> io::Result<()> {
    let rules = gather(signature, formulas);
    print_rules(rt, signature, &rules)?;
    for formula in formulas {
        if formula.role == Role::NegatedConjecture {
            print_goal(rt, signature, &rules.patterns, formula)?;
        }
    }
    Ok(())
}

// The patterns by number.
fn print_rules(rt: &HostRuntime, signature: &Signature, rules: &Rules) -> io::Result<()> {
    rt.println("Higher sides under the Knuth-Bendix order, by number")?;
    let left_out = rules.left_out;
    if left_out > 0 {
        println!(rt;
            "  The tree has room for 64 patterns: the first 64 are taken, {left_out} left out."
        )?;
    }
    for number in 1..65u16 {
        if let Ok(pattern) = rules.patterns.get(number) {
            print_pattern(rt, signature, number, &pattern)?;
        }
    }
    Ok(())
}

fn print_pattern(
    rt: &HostRuntime,
    signature: &Signature,
    number: u16,
    pattern: &Pattern,
) -> io::Result<()> {
    let Some(text) = or_refusal(rt, pattern_text(signature, pattern))? else {
        return Ok(());
    };
    let term = Shown(text.as_slice());
    println!(rt; "  {number:>2} {term}")
}

// The pattern's text, from a bank of its own.
fn pattern_text(signature: &Signature, pattern: &Pattern) -> Result<Text, Fault> {
    let mut cells = [Cell::Var(0); 32];
    let mut count = Count { len: 0 };
    let cell = enter(signature, pattern, &mut cells, &mut count)?;
    Ok(text_of(signature, &cells, &count, cell)?)
}

// A pattern has at most 32 cells, each at most a name of 16 bytes with a parenthesis and a comma. Its text takes no memory from elsewhere.
type Text = Row<u8, 1024>;

fn text_of(
    signature: &Signature,
    cells: &[Cell],
    count: &Count,
    cell: u16,
) -> Result<Text, Refusal> {
    let mut bytes = [0; 1024];
    let len = write_term(signature, cells, count, cell, &mut bytes)?;
    Ok(Row::front(bytes, len))
}

// The sides of a formula have together at most 64 cells.
fn print_goal(
    rt: &HostRuntime,
    signature: &Signature,
    patterns: &Patterns,
    goal: &Equation,
) -> io::Result<()> {
    rt.print("Goal ")?;
    print_sides(rt, signature, goal)?;
    let mut cells = [Cell::Var(0); 64];
    let mut count = Count { len: 0 };
    match enter_sides(signature, goal, &mut cells, &mut count) {
        Ok(()) => print_subterms(rt, signature, patterns, &cells, &count),
        Err(refusal) => print_refusal(rt, refusal),
    }
}

fn print_subterms(
    rt: &HostRuntime,
    signature: &Signature,
    patterns: &Patterns,
    cells: &[Cell],
    count: &Count,
) -> io::Result<()> {
    let mut agree = true;
    for cell in 0..count.len.min(64) as u16 {
        agree &= print_subterm(rt, signature, patterns, cells, count, cell)?;
    }
    rt.println(if agree {
        "  The plain list gives what the filter keeps."
    } else {
        "  The plain list does not give what the filter keeps."
    })
}

// Whether the plain list agrees.
fn print_subterm(
    rt: &HostRuntime,
    signature: &Signature,
    patterns: &Patterns,
    cells: &[Cell],
    count: &Count,
    cell: u16,
) -> io::Result<bool> {
    let found = text_and_offer(signature, patterns, cells, count, cell);
    let Some((text, offer)) = or_refusal(rt, found)? else {
        return Ok(false);
    };
    let term = Shown(text.as_slice());
    let offered = Listed(offer.offered.as_slice());
    let kept = Listed(offer.kept.as_slice());
    println!(rt; "  {term}: the tree offers {offered}; the filter keeps {kept}")?;
    Ok(offer.agrees)
}

fn text_and_offer(
    signature: &Signature,
    patterns: &Patterns,
    cells: &[Cell],
    count: &Count,
    cell: u16,
) -> Result<(Text, Offer), Fault> {
    let text = text_of(signature, cells, count, cell)?;
    let offer = ask(patterns, signature, cells, count, cell)?;
    Ok((text, offer))
}
