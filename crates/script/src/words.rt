// The words of the script.
ghost use Rattle.std.specs.Prelude.{◌≡◌, MatchResult, ◌≢◌};
ghost use Rattle.script.specs.Spellings.{word, order_word, index_word};

use crate::call::{Fault, Index, Order, Word};

impl TryFrom<&[u8]> for Word {
    ghost use Rattle.script.specs.declared.call.Word.{Word};

    type Error = Fault;

    ghost try_from_gives = { λ t r. MatchResult r (λ w. t.now ≡ word w) (λ _. (w : Word) → t.now ≢ word w) };

    #[tactic(auto, using(std::proofs::lemmas::Slice::Eq::text_from_reads))]
    fn try_from(text: &[u8]) -> Result<Word, Fault> {
        match text {
            b"signature" => Ok(Word::Signature),
            b"open" => Ok(Word::Open),
            b"add" => Ok(Word::Add),
            b"remove" => Ok(Word::Remove),
            b"audit" => Ok(Word::Audit),
            b"release" => Ok(Word::Release),
            b"simplify" => Ok(Word::Simplify),
            b"judge" => Ok(Word::Judge),
            b"read" => Ok(Word::Read),
            _ => Err(Fault::Malformed),
        }
    }
}

impl TryFrom<&[u8]> for Order {
    ghost use Rattle.script.specs.declared.call.Order.{Order};

    type Error = Fault;

    ghost try_from_gives = { λ t r. MatchResult r (λ o. t.now ≡ order_word o) (λ _. (o : Order) → t.now ≢ order_word o) };

    #[tactic(auto, using(std::proofs::lemmas::Slice::Eq::text_from_reads))]
    fn try_from(text: &[u8]) -> Result<Order, Fault> {
        match text {
            b"kbo" => Ok(Order::Kbo),
            b"lpo" => Ok(Order::Lpo),
            _ => Err(Fault::Malformed),
        }
    }
}

impl TryFrom<&[u8]> for Index {
    ghost use Rattle.script.specs.declared.call.Index.{Index};

    type Error = Fault;

    ghost try_from_gives = { λ t r. MatchResult r (λ i. t.now ≡ index_word i) (λ _. (i : Index) → t.now ≢ index_word i) };

    #[tactic(auto, using(std::proofs::lemmas::Slice::Eq::text_from_reads))]
    fn try_from(text: &[u8]) -> Result<Index, Fault> {
        match text {
            b"list" => Ok(Index::List),
            b"tree" => Ok(Index::Tree),
            _ => Err(Fault::Malformed),
        }
    }
}
