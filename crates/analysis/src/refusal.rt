// Why the analysis grants no dates.
ghost use Rattle.std.specs.Prelude.{◌≡◌};
ghost use Rattle.analysis.specs.Answers.{number_of};

#[derive(Clone, Copy, PartialEq, Eq, Debug)]
pub enum Refusal {
    // The plan has no task.
    NoTask,
    // There is not one arbiter per bank, or one is narrower than the places.
    Arbiters,
    // The table has fewer rows than there are tasks.
    Table,
    // The lowest row whose consistent dates end after the period, and its finish.
    Late { row: usize, finish: u64 },
}

impl Refusal {
    // The number by which the rules know the refusal.
    pub fn number(self) -> u32
        ensures { result ≡ number_of self }
    {
        match self {
            Refusal::NoTask => 9,
            Refusal::Arbiters => 10,
            Refusal::Table => 11,
            Refusal::Late { .. } => 12,
        }
    }
}
