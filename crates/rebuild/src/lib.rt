// The changed forms of a step: of each subterm that contained the replaced one, in the bank's order.
#![tactic(auto)]

ghost use Rattle.std.specs.Prelude.{◌≡◌, ◌<◌, ◌≤◌, length, slice_index};
ghost use Rattle.bank.specs.declared.cell.Cell.TheVariants.{Var};
ghost use Rattle.enter.specs.Machine.{Grew};
ghost use Rattle.rebuild.specs.Forms.{Slotted, Mapped};
ghost use Rattle.rebuild.specs.Rebuilds.{Formed, Rebuilds};

use bank::cell::Cell;
use enter::enter_cell;
use lent_list::Count;
use std::array;

// The replaced cell and the cell put in its place.
#[derive(Clone, Copy)]
pub struct Change {
    pub replaced: u16,
    pub put_in: u16,
}

// The cell of the root's changed form, or none where the bank is full. `marks` has the root's subterms; `forms` takes each cell's form.
pub fn rebuild(
    cells: &mut [Cell],
    count: &mut Count,
    root: u16,
    change: Change,
    marks: &[bool],
    forms: &mut [u16],
) -> Option<u16>
    ensures grew { count.old.len ≤ length cells.old → Grew cells.old count.old.len cells.new count.new.len }
    ensures does { Rebuilds cells.old count.old.len root change.replaced change.put_in marks.now (length forms.old) cells.new count.new.len result }
{
    let root = root as usize;
    let start = count.len;
    if start > cells.len() || root >= start || cells.len() > 2048 {
        return None;
    }
    if root >= marks.len() || root >= forms.len() {
        return None;
    }
    // By place: each form is read by the later ones.
    for k in 0..root + 1 {
        forms[k] = form(cells, count, k, change, marks, forms)?;
    }
    Some(forms[root])
}

// What cell k becomes, its arguments' forms being known.
fn form(
    cells: &mut [Cell],
    count: &mut Count,
    k: usize,
    change: Change,
    marks: &[bool],
    forms: &[u16],
) -> Option<u16>
    requires counted { count.old.len ≤ length cells.old }
    requires few { length cells.old ≤ 2048 }
    requires within { k < count.old.len }
    requires marked { k < length marks.now }
    ensures grew { Grew cells.old count.old.len cells.new count.new.len }
    ensures does { Formed cells.old count.old.len k change.replaced change.put_in marks.now forms.now cells.new count.new.len result }
{
    if k == change.replaced as usize {
        return Some(change.put_in);
    }
    if !marks[k] {
        return Some(k as u16);
    }
    let cell = cells[k];
    let changed = changed_cell(cell, forms);
    if changed == cell {
        return Some(k as u16);
    }
    enter_cell(cells, count, changed)
}

// The cell with its arguments' forms.
fn changed_cell(cell: Cell, forms: &[u16]) -> Cell
    ensures { Mapped forms.now cell result }
{
    match cell {
        Cell::Var(x) => Cell::Var(x),
        Cell::App {
            symbol,
            arity,
            args,
        } => Cell::App {
            symbol,
            arity,
            args: changed_args(arity as usize, args, forms),
        },
    }
}

fn changed_args(arity: usize, args: [u16; 4], forms: &[u16]) -> [u16; 4]
    ensures { Slotted arity forms.now args result }
{
    array::from_fn(|k| {
        if k < arity {
            form_of(args[k], forms)
        } else {
            0
        }
    })
}

// 0 for a cell that has no form.
fn form_of(cell: u16, forms: &[u16]) -> u16
    ensures { result ≡ slice_index forms.now cell }
{
    forms.get(cell as usize).copied().unwrap_or(0)
}
