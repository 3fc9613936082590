ghost use Rattle.signature.specs.Texts.{Read, ReadsOnce};
ghost use Rattle.signature.specs.Signatures.{lines_read};

use super::Signature;
use crate::line::first_line;
use crate::symbol::is_taken;
use refusal::Refusal;
use row::Row;

impl Signature {
    // The signature that the text writes, a line for each symbol.
    pub fn read(text: &[u8]) -> Result<Signature, Refusal>
        ensures outcome { Read text.now (lines_read result) }
        ensures once { ReadsOnce }
    {
        let Some((first, after)) = first_line(text) else {
            return Err(Refusal::SignatureLine(1));
        };
        // Until the others are read, the first line's symbol lies in their places; an array, since a row so large is slow to fill.
        let mut symbols = [first; 64];
        let mut count = 1;
        let mut rest = after;
        while !rest.is_empty() {
            let bad_line = Refusal::SignatureLine(count + 1);
            let (symbol, after) = first_line(rest).ok_or(bad_line)?;
            if is_taken(&symbols[..count], symbol.name.bytes()) {
                return Err(bad_line);
            }
            if count == 64 {
                return Err(bad_line);
            }
            symbols[count] = symbol;
            count += 1;
            rest = after;
        }
        let symbols = Row::front(symbols, count);
        Ok(Signature { symbols })
    }
}
