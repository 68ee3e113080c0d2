// Two arbiters under one numbering, which both layers are made of: the first side's sources come first.
mod bounds;
mod calls;

#[derive(Clone, Copy, PartialEq, Eq)]
pub enum Side {
    First,
    Second,
}

// The sides, and which of them was picked from last.
#[derive(Drop)]
pub struct Pair<L, R> {
    pub(crate) first: L,
    pub(crate) second: R,
    pub(crate) latest: Option<Side>,
}
