// The line and the column of a byte of a text.
#![tactic(auto)]

ghost use Rattle.std.specs.Prelude.{◌≡◌, ◌+◌, ◌<◌, ◌≤◌, ◌⊎◌, length, MatchOption};
ghost use Rattle.places.specs.Lines.{feeds, Starts, Ends, Placed, OnLine};

#[cfg(test)]
mod tests;

// Lines and columns are counted from 1. The line's bytes go from `start` up to `end`, without its line feed.
#[derive(Clone, Copy)]
pub struct Place {
    pub line: usize,
    pub column: usize,
    pub start: usize,
    pub end: usize,
}

// Where the byte stands; the byte behind the last one is still a place.
pub fn place_of(text: &[u8], byte: usize) -> Option<Place>
    ensures { MatchOption result (length text.now < byte) (λ p. Placed text.now byte p) }
{
    if byte > text.len() {
        return None;
    }
    let start = line_start(text, byte);
    Some(Place {
        line: 1 + count_feeds(&text[..byte]),
        column: byte - start + 1,
        start,
        end: line_end(text, byte),
    })
}

// A place on the line of this number.
pub fn line_place(text: &[u8], line: usize) -> Option<Place>
    ensures { MatchOption result ((line ≡ 0) ⊎ (1 + feeds text.now < line)) (λ p. OnLine text.now line p) }
{
    if line == 0 {
        return None;
    }
    // The line feeds are counted up to the place that is the answer.
    let mut n = 1;
    for (at, byte) in text.iter().enumerate() {
        if n == line {
            return place_of(text, at);
        }
        if *byte == b'\n' {
            n += 1;
        }
    }
    if n < line {
        return None;
    }
    place_of(text, text.len())
}

fn count_feeds(text: &[u8]) -> usize
    ensures count { result ≡ feeds text.now }
    ensures few { result ≤ length text.now }
{
    // One loop, which is compiled to whole vectors of bytes; `filter` and `count` took twice as long.
    let mut n = 0;
    for byte in text {
        if *byte == b'\n' {
            n += 1;
        }
    }
    n
}

fn line_start(text: &[u8], at: usize) -> usize
    requires { at ≤ length text.now }
    ensures { Starts text.now at result }
{
    match text[..at].iter().rposition(|byte| *byte == b'\n') {
        Some(feed) => feed + 1,
        None => 0,
    }
}

fn line_end(text: &[u8], at: usize) -> usize
    requires { at ≤ length text.now }
    ensures { Ends text.now at result }
{
    match text[at..].iter().position(|byte| *byte == b'\n') {
        Some(len) => at + len,
        None => text.len(),
    }
}
