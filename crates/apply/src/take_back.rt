// A guard over the count of a bank: unless the step is committed, its end takes back every term entered since it began.
ghost use Rattle.std.specs.Prelude.{◌≡◌, ◌≤◌, length, Some, None, unwrap_or};
ghost use Rattle.enter.specs.Machine.{Grew};
ghost use Rattle.rebuild.specs.Rebuilds.{Rebuilds};
ghost use Rattle.apply.specs.Enters.{Enters};

use bank::cell::Cell;
use enter::enter_instance;
use lent_list::Count;
use rebuild::{Change, rebuild};
use terms::pattern::Pattern;

// `start` is the count to go back to: none once the step is committed.
pub struct TakeBack<'a> {
    count: &'a mut Count,
    start: Option<usize>,
}

impl Drop for TakeBack<'_> {
    fn drop(self)
        ensures { self.exit.0.now.len ≡ unwrap_or self.entry.start self.entry.count.now.len }
    {
        if let Some(start) = self.start {
            self.count.len = start;
        }
        let TakeBack { count: _, start: _ } = self;
    }
}

impl<'a> TakeBack<'a> {
    pub fn over(count: &'a mut Count) -> TakeBack<'a>
        ensures { (result.count.ghost_name ≡ count.entry.ghost_name) × (result.count.now ≡ count.old) × (result.start ≡ Some count.old.len) }
    {
        let start = Some(count.len);
        TakeBack { count, start }
    }

    // The cell of the instance, or none where there is no room.
    pub fn enter(
        &mut self,
        pattern: &Pattern,
        bindings: &[Option<u16>],
        cells: &mut [Cell],
    ) -> Option<u16>
        ensures guard { (self.new.count.ghost_name ≡ self.old.count.ghost_name) × (self.new.start ≡ self.old.start) }
        ensures does { Enters pattern.now bindings.now cells.old self.old.count.now.len cells.new self.new.count.now.len result }
    {
        enter_instance(pattern, bindings, cells, &mut *self.count).ok()
    }

    // The cell of the root's changed form, or none where there is no room.
    pub fn rebuild(
        &mut self,
        cells: &mut [Cell],
        root: u16,
        change: Change,
        marks: &[bool],
    ) -> Option<u16>
        ensures guard { (self.new.count.ghost_name ≡ self.old.count.ghost_name) × (self.new.start ≡ self.old.start) }
        ensures grew { self.old.count.now.len ≤ length cells.old → Grew cells.old self.old.count.now.len cells.new self.new.count.now.len }
        ensures does { Rebuilds cells.old self.old.count.now.len root change.replaced change.put_in marks.now 2048 cells.new self.new.count.now.len result }
    {
        // One for each cell that a bank can have: a step takes no memory from elsewhere.
        let mut forms = [0; 2048];
        rebuild(cells, &mut *self.count, root, change, marks, &mut forms)
    }

    pub fn commit(&mut self)
        ensures { (self.new.count.ghost_name ≡ self.old.count.ghost_name) × (self.new.count.now ≡ self.old.count.now) × (self.new.start ≡ None) }
    {
        self.start = None;
    }
}
