// Enters terms into a bank: the arguments from left to right, then the term itself, each unless it stands there already.
#![tactic(auto)]

ghost use Rattle.std.specs.Prelude.{◌≡◌, ◌≤◌, length, take, None};
ghost use Rattle.enter.specs.Enter.{note as noted_once};
ghost use Rattle.enter.specs.Machine.{Gives, Grew};
ghost use Rattle.enter.specs.Outcome.{Entered, Laid};

use bank::cell::Cell;
use bank::rules::keeps_rules;
use lent_list::Count;
use machine::run;
use note::put;
use over::is_over;
use refusal::Refusal;
use signature::signature::Signature;
use terms::pattern::Pattern;

mod machine;
mod note;
#[cfg(test)]
mod tests;

// The cell of the pattern's term, entered into a bank of any content.
pub fn enter(
    signature: &Signature,
    pattern: &Pattern,
    cells: &mut [Cell],
    count: &mut Count,
) -> Result<u16, Refusal>
    ensures { Entered signature.now pattern.now cells.old count.old.len cells.new count.new.len result }
{
    keeps_rules(signature, cells, count)?;
    if !is_over(signature, pattern) {
        return Err(Refusal::BankRules);
    }
    enter_instance(pattern, &[], cells, count)
}

// The cell of the pattern's instance, each variable standing for the cell that it is bound to. The bank is not checked:
// where it keeps its rules, it still does, and where it does not, the cells are found and appended all the same.
pub fn enter_instance(
    pattern: &Pattern,
    bindings: &[Option<u16>],
    cells: &mut [Cell],
    count: &mut Count,
) -> Result<u16, Refusal>
    ensures { Laid pattern.now bindings.now cells.old count.old.len cells.new count.new.len result }
{
    if cells.is_empty() || cells.len() > 2048 {
        return Err(Refusal::Limits);
    }
    let start = count.len;
    if start > cells.len() {
        return Err(Refusal::BankRules);
    }
    match run(pattern.nodes(), bindings, cells, count) {
        Some(cell) => Ok(cell),
        None => {
            count.len = start;
            Err(Refusal::GoalTooLarge)
        }
    }
}

// One cell: where it stands among the counted cells, or the next free one. A bank outside its limits takes none.
pub fn enter_cell(cells: &mut [Cell], count: &mut Count, cell: Cell) -> Option<u16>
    ensures gives { count.old.len ≤ length cells.old → length cells.old ≤ 2048 → Gives (noted_once (length cells.old) cell (take count.old.len cells.old)) result cells.new count.new.len }
    ensures grew { count.old.len ≤ length cells.old → Grew cells.old count.old.len cells.new count.new.len }
    ensures refuses { ((count.old.len ≤ length cells.old) × (length cells.old ≤ 2048) → ⊥) → (result ≡ None) × (cells.new ≡ cells.old) × (count.new ≡ count.old) }
{
    if count.len > cells.len() || cells.len() > 2048 {
        return None;
    }
    put(cells, count, cell)
}
