// Where the next step is taken: at the earliest cell that is an instance of a stored pattern, by the lowest number of such a pattern.
#![tactic(auto)]

ghost use Rattle.strategy.specs.Searches.{Lowest, LowestAt, Searched};

use bank::cell::Cell;
use index::exact::ExactIndex;
use index::index::Index;
use lent_list::Count;

#[derive(Clone, Copy)]
pub struct Redex {
    pub cell: u16,
    pub equation: u16,
}

// `marks` has the root's subterms. `settled` has cells that are no instance of any pattern, and takes those that are found to be none,
// so that no cell of a bank is asked about twice.
pub fn next_redex<I: ExactIndex>(
    index: &I,
    bank: &[Cell],
    root: u16,
    marks: &[bool],
    settled: &mut [bool],
) -> Option<Redex>
    ensures { Searched (I.Index.stored index.now) bank.now root marks.now settled.old settled.new result }
{
    let root = root as usize;
    if root >= bank.len() || root >= marks.len() || root >= settled.len() {
        return None;
    }
    // By place: the cell's number is what is sought.
    for k in 0..root + 1 {
        if marks[k] && !settled[k] {
            let cell = k as u16;
            if let Some(equation) = lowest_at(index, bank, cell) {
                return Some(Redex { cell, equation });
            }
            settled[k] = true;
        }
    }
    None
}

// The lowest number of a pattern that the cell is an instance of.
fn lowest_at<I: ExactIndex>(index: &I, bank: &[Cell], cell: u16) -> Option<u16>
    ensures { LowestAt (I.Index.stored index.now) bank.now cell result }
{
    let mut list = [0; 128];
    let mut found = Count { len: 0 };
    index.retrieve_exact(bank, cell, &mut list, &mut found);
    lowest(&list[..found.len])
}

fn lowest(numbers: &[u16]) -> Option<u16>
    ensures { Lowest numbers.now result }
{
    numbers.iter().copied().min()
}
