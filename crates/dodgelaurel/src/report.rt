// What is printed of a signature, of a formula and of a refusal.
use formula::equation::Equation;
use grammar::part::Part;
use grammar::reader::Reader;
use places::{Place, line_place, place_of};
use printing::shown::{Equality, Higher, Marked, Shown};
use printing::{print_refusal, sides_of};
use refusal::Refusal;
use round_trip::read;
use sides::higher_sides;
use signature::signature::Signature;
use std::io;

// The symbols in the order of their precedence.
pub fn print_signature(rt: &HostRuntime, signature: &Signature) -> io::Result<()> {
    let count = signature.count();
    println!(rt; "{count} symbols, from the lowest in precedence to the highest")?;
    for symbol in 0..64u8 {
        print_symbol(rt, signature, symbol)?;
    }
    Ok(())
}

// Nothing, if the signature has no such symbol.
fn print_symbol(rt: &HostRuntime, signature: &Signature, symbol: u8) -> io::Result<()> {
    let (Some(name), Some(arity), Some(weight)) = (
        signature.name(symbol),
        signature.arity(symbol),
        signature.weight(symbol),
    ) else {
        return Ok(());
    };
    let word = Shown(name.bytes());
    println!(rt; "  {symbol:>2} {word}: arity {arity}, weight {weight}")
}

// Each formula of the text in its turn. What breaks the grammar ends the reading; a formula that is refused for another
// reason is passed over.
pub fn print_problem(rt: &HostRuntime, signature: &Signature, text: &[u8]) -> io::Result<()> {
    let mut reader = match Reader::over(text) {
        Ok(reader) => reader,
        Err(refusal) => return print_refusal(rt, refusal),
    };
    loop {
        match reader.next() {
            Ok(Some(part)) => print_part(rt, signature, text, part)?,
            Ok(None) => return Ok(()),
            Err(refusal) => {
                print_refused_at(rt, text, 0, refusal)?;
                return rt.println("The reading stops here.");
            }
        }
    }
}

fn print_part(
    rt: &HostRuntime,
    signature: &Signature,
    text: &[u8],
    part: Part<'_>,
) -> io::Result<()> {
    let byte = part.place;
    if let Some(place) = place_of(text, byte) {
        let Place { line, column, .. } = place;
        print!(rt; "{line}:{column} (byte {byte}): ")?;
    }
    match read(signature, part.bytes) {
        Ok(equation) => print_equation(rt, signature, &equation),
        Err(refusal) => {
            rt.println("this formula is refused")?;
            print_refused_at(rt, text, byte, refusal)
        }
    }
}

fn print_equation(rt: &HostRuntime, signature: &Signature, equation: &Equation) -> io::Result<()> {
    let Some(sides) = sides_of(rt, signature, equation)? else {
        return Ok(());
    };
    let role = equation.role;
    let equality = Equality {
        sides: &sides,
        sign: equation.sign,
    };
    println!(rt; "{role}\n  {equality}")?;
    let left_len = equation.left.len();
    let right_len = equation.right.len();
    let cells = sides.cells;
    let variables = equation.variables;
    println!(rt; "  cells: {left_len} and {right_len}, {cells} in a bank; variables: {variables}")?;
    print_higher(rt, signature, equation)
}

fn print_higher(rt: &HostRuntime, signature: &Signature, equation: &Equation) -> io::Result<()> {
    let Some(turned) = higher_sides(signature, equation) else {
        return Ok(());
    };
    let weighed = Higher(turned.knuth_bendix);
    let path = Higher(turned.path);
    println!(rt; "  Knuth-Bendix order: {weighed}\n  lexicographic path order: {path}")
}

// The refusal of a signature, with the line that it names.
pub fn print_bad_signature(rt: &HostRuntime, text: &[u8], refusal: Refusal) -> io::Result<()> {
    let Some(line) = refusal.place() else {
        return print_refusal(rt, refusal);
    };
    let number = refusal.number();
    println!(rt; "  refused {number} at line {line}: {refusal}")?;
    let Some(place) = line_place(text, line) else {
        return Ok(());
    };
    let row = Shown(&text[place.start..place.end]);
    println!(rt; "    | {row}")
}

// A refusal of what begins at `start` of the text, with its line and a mark under the byte.
fn print_refused_at(
    rt: &HostRuntime,
    text: &[u8],
    start: usize,
    refusal: Refusal,
) -> io::Result<()> {
    let Some(byte) = refusal.place() else {
        return print_refusal(rt, refusal);
    };
    let Some(place) = place_of(text, start.saturating_add(byte)) else {
        return print_refusal(rt, refusal);
    };
    let Place { line, column, .. } = place;
    let number = refusal.number();
    let marked = Marked {
        line: &text[place.start..place.end],
        column,
    };
    println!(rt; "  refused {number} at {line}:{column}: {refusal}\n{marked}")
}
