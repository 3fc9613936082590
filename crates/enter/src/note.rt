// One cell into the bank: where it stands, or the next free one.
ghost use Rattle.std.specs.Prelude.{◌≤◌, length, take, None, slice_index_or};
ghost use Rattle.enter.specs.Enter.{bound};
ghost use Rattle.enter.specs.Machine.{Put, Gives, Grew};

use bank::cell::Cell;
use lent_list::{Count, List};

pub fn put(cells: &mut [Cell], count: &mut Count, cell: Cell) -> Option<u16>
    requires counted { count.old.len ≤ length cells.old }
    requires few { length cells.old ≤ 2048 }
    ensures { Put cells.old count.old.len cells.new count.new.len cell result }
{
    let mut list = List::over(cells, count);
    if let Some(at) = list.find_first(cell) {
        return Some(at as u16);
    }
    let at = list.len();
    list.append(cell).then_some(at as u16)
}

// A variable stands for the cell that it is bound to, or else for itself.
pub fn variable(
    cells: &mut [Cell],
    count: &mut Count,
    bindings: &[Option<u16>],
    x: u8,
) -> Option<u16>
    requires counted { count.old.len ≤ length cells.old }
    requires few { length cells.old ≤ 2048 }
    ensures gives { Gives (bound (length cells.old) x (take count.old.len cells.old) (slice_index_or bindings.now x None)) result cells.new count.new.len }
    ensures grew { Grew cells.old count.old.len cells.new count.new.len }
{
    match bindings.get(usize::from(x)).copied().flatten() {
        Some(cell) => Some(cell),
        None => put(cells, count, Cell::Var(x)),
    }
}
