// A row of a table of dates.
ghost use Rattle.std.specs.Prelude.{◌≡◌};
ghost use Rattle.date_check.specs.Sound.{finish as finish_of, overlap};
ghost use Rattle.date_check.specs.Verdict.{in_range};

// When a task is released, and how long it may take from then on.
#[derive(Clone, Copy, Default, PartialEq, Eq, Debug)]
pub struct Dates {
    pub release: u32,
    pub response: u32,
}

const LIMIT: u32 = 1_000_000_000;

impl Dates {
    // The date at which the task is done at the latest.
    pub fn finish(self) -> u64
        ensures { result ≡ finish_of self }
    {
        u64::from(self.release) + u64::from(self.response)
    }

    // Is each released before the other's finish?
    pub(crate) fn overlaps(self, other: Dates) -> bool
        ensures { result ≡ overlap self other }
    {
        u64::from(self.release) < other.finish() && u64::from(other.release) < self.finish()
    }

    // Are both at most 1,000,000,000?
    pub fn is_in_range(self) -> bool
        ensures { result ≡ in_range self }
    {
        self.release <= LIMIT && self.response <= LIMIT
    }
}
