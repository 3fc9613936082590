ghost use Rattle.std.specs.Iterator.{YieldsFirst, item_count};
ghost use Rattle.subterms.specs.Rows.{places};

use super::Arguments;

impl<'a> Iterator for Arguments<'a> {
    type Item = usize;

    ghost next_gives = { YieldsFirst places };

    ghost remaining = { item_count places };

    fn next(&mut self) -> Option<usize> {
        if self.left == 0 {
            return None;
        }
        let place = self.next;
        self.next = self.ends.get(place).copied().unwrap_or(0);
        self.left -= 1;
        Some(place)
    }
}
