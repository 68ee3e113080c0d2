// Why a run refuses a call.
ghost use Rattle.std.specs.Prelude.{◌≡◌};
ghost use Rattle.cluster.specs.Refusals.{call_number, set_up_number};

// Why a set-up is refused.
#[derive(Clone, Copy, PartialEq, Eq, Debug)]
pub enum SetUpRefusal {
    // The plan has no task.
    NoTask,
    // There is not one arbiter per bank, or one is narrower than the places.
    Arbiters,
    // The table has fewer rows than there are tasks.
    Table,
    // Somebody waits at an arbiter.
    Waiting,
    // A release is above 1,000,000,000, or a response is not from 1 to 1,000,000,000.
    Range,
    // This row finishes after the period.
    Late(usize),
}

impl SetUpRefusal {
    // The number by which the rules know the refusal.
    pub fn number(self) -> u32
        ensures { result ≡ set_up_number self }
    {
        match self {
            SetUpRefusal::NoTask => 9,
            SetUpRefusal::Arbiters => 10,
            SetUpRefusal::Table => 11,
            SetUpRefusal::Waiting => 15,
            SetUpRefusal::Range => 5,
            SetUpRefusal::Late(_) => 12,
        }
    }
}

// Why an ask, a cycle or a question is refused.
#[derive(Clone, Copy, PartialEq, Eq, Debug)]
pub enum CallRefusal {
    // A breach stands.
    Breached,
    // There is no such row, place or bank.
    Unknown,
    // No task is at work at the place.
    Idle,
    // The place waits or is served.
    Busy,
    // The task has no access to the bank left.
    Spent,
}

impl CallRefusal {
    // The number by which the rules know the refusal.
    pub fn number(self) -> u32
        ensures { result ≡ call_number self }
    {
        match self {
            CallRefusal::Breached => 16,
            CallRefusal::Unknown => 7,
            CallRefusal::Idle => 17,
            CallRefusal::Busy => 18,
            CallRefusal::Spent => 19,
        }
    }
}
