// The parts of a plan: its head, its task rows, and why a call is refused.
ghost use Rattle.std.specs.Prelude.{◌≡◌};
ghost use Rattle.plan.specs.Refusals.{number_of};
ghost use Rattle.plan.specs.declared.rows.Refusal.TheVariants.{Memory};

use std::alloc::AllocFailed;

#[derive(Clone, Copy, Default, PartialEq, Eq, Debug)]
pub struct Head {
    pub places: usize,
    pub banks: usize,
    pub latency: u64,
    pub period: u64,
}

// A task: its place, its cycles alone, its earliest date, its accesses bank by bank, and the earlier rows that it names.
// The accesses stand in place, for all 16 banks: a demand needs no memory, and has no refusal for want of it.
#[derive(Drop)]
pub struct Task {
    pub place: usize,
    pub cycles: u64,
    pub earliest: u64,
    pub demands: [u64; 16],
    pub after: Vec<usize>,
}

#[derive(Clone, Copy, PartialEq, Eq, Debug)]
pub enum Refusal {
    Order,
    Range,
    Full,
    Unknown,
    Twice,
    Memory,
}

impl Refusal {
    // The number by which the rules know the refusal; want of memory, which no rule names, has 0.
    pub fn number(self) -> u32
        ensures { result ≡ number_of self }
    {
        match self {
            Self::Order => 4,
            Self::Range => 5,
            Self::Full => 6,
            Self::Unknown => 7,
            Self::Twice => 8,
            Self::Memory => 0,
        }
    }
}

impl<T: Drop> From<AllocFailed<T>> for Refusal {
    ghost from_gives = { λ _ r. r ≡ Memory };

    fn from(_e: AllocFailed<T>) -> Refusal {
        Refusal::Memory
    }
}
