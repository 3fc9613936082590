// An equation that an order has turned.
use terms::pattern::Pattern;

#[derive(Clone, Copy)]
pub struct Oriented {
    pub higher: Pattern,
    pub lower: Pattern,
}
