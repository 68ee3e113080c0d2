// A service of a bank: the place that is served, and the cycles left.
#[derive(Clone, Copy, PartialEq, Eq, Debug)]
pub struct Service {
    pub place: usize,
    pub left: u64,
}
