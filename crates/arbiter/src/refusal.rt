// Why an arbiter refuses a call.
ghost use Rattle.std.specs.Prelude.{◌≡◌};
ghost use Rattle.arbiter.specs.Answers.{number_of};

#[derive(Clone, Copy, PartialEq, Eq, Debug)]
pub enum Refusal {
    // A count is above the limit.
    Range,
    // The source is not below the width.
    Unknown,
    // There are not exactly 32 counts.
    Size,
    // The source waits already.
    Waiting,
}

impl Refusal {
    // The number by which the rules know the refusal.
    pub fn number(self) -> u32
        ensures { result ≡ number_of self }
    {
        match self {
            Refusal::Range => 5,
            Refusal::Unknown => 7,
            Refusal::Size => 10,
            Refusal::Waiting => 18,
        }
    }
}
