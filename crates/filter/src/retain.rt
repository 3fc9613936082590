// The items of a list that a closure keeps move to its front.
ghost use Rattle.std.specs.Prelude.{◌≡◌, ◌≤◌, length, take, drop};
ghost use Rattle.filter.specs.Retained.{Retained};

use lent_list::Count;

// They keep their order. By index: an item moves within the one slice.
pub fn retain<F: Fn(u16) -> bool>(list: &mut [u16], count: &mut Count, keeps: F)
    requires { F.IsAlwaysCallable keeps }
    ensures within { count.new.len ≤ length list.new }
    ensures past { drop count.old.len list.new ≡ drop count.old.len list.old }
    ensures retained { Retained (F.post keeps) (take count.old.len list.old) (take count.new.len list.new) }
{
    let mut kept = 0;
    for i in 0..count.len.min(list.len()) {
        let item = list[i];
        if keeps(item) {
            list[kept] = item;
            kept += 1;
        }
    }
    count.len = kept;
}
