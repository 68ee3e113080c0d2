// The steps of a case: a question to the libraries, and the answer that is expected.

#[derive(Clone, Copy)]
pub(crate) enum Question {
    Check,
    // Before the set-up a source posts at a bank's arbiter, and perhaps a pick follows.
    Post {
        bank: usize,
        source: usize,
        picks: bool,
    },
    SetUp,
    Run(Call),
}

// A call of a run.
#[derive(Clone, Copy)]
pub(crate) enum Call {
    Ask { place: usize, bank: usize },
    // So many cycles, one after the other.
    Cycles(u64),
    // The time and the breach.
    Now,
    Place(usize),
    Task(usize),
}

// Numbers, since the file has the rules' numbers, and those of the libraries' enums are compared with them.
#[derive(Clone, Copy, PartialEq, Eq, Debug)]
pub(crate) enum Answer {
    // A refusal and the row that it names; 0 where there is none.
    Verdict { number: u64, row: u64 },
    // A refusal, or 0.
    Done(u64),
    // The time, and the kind and the row of the breach; 0 where there is none.
    Now { time: u64, kind: u64, row: u64 },
    // What a place does or how far a task is, or a refusal.
    State(u64),
    // There is no such bank, or no run.
    Absent,
}

#[derive(Clone, Copy)]
pub(crate) struct Step {
    pub(crate) line: usize,
    pub(crate) question: Question,
    pub(crate) answer: Answer,
}

// A line of a case at which the answer is not the expected one.
#[derive(Clone, Copy)]
pub(crate) struct Difference {
    pub(crate) line: usize,
    pub(crate) expected: Answer,
    pub(crate) got: Answer,
}
