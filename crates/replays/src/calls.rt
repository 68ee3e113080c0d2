// What a run answers to its calls.
use crate::steps::{Answer, Call};
use arbiter::Arbiter;
use cluster::{CallRefusal, Place, Stage};
use run::Run;

// What was told, or the number of the refusal.
fn number(told: Result<u64, CallRefusal>) -> u64 {
    told.unwrap_or_else(|refusal| u64::from(refusal.number()))
}

fn place_number(place: Place) -> u64 {
    match place {
        Place::Idle => 0,
        Place::Working(_) => 1,
        Place::Waiting(_, _) => 2,
        Place::Served(_, _) => 3,
    }
}

fn stage_number(stage: Stage) -> u64 {
    match stage {
        Stage::Ahead => 0,
        Stage::AtWork => 1,
        Stage::Done => 2,
    }
}

fn now<A: Arbiter>(run: &Run<A>) -> Answer {
    let (kind, row) = match run.breach() {
        Some(breach) => (u64::from(breach.kind()), breach.row() as u64),
        None => (0, 0),
    };
    Answer::Now {
        time: run.time(),
        kind,
        row,
    }
}

// The answer of the last cycle.
fn cycles<A: Arbiter>(run: &mut Run<A>, count: u64) -> u64 {
    let mut last = 0;
    for _ in 0..count {
        last = number(run.cycle().map(|()| 0));
    }
    last
}

pub(crate) fn answer<A: Arbiter>(run: &mut Run<A>, call: Call) -> Answer {
    match call {
        Call::Ask { place, bank } => Answer::Done(number(run.ask(place, bank).map(|()| 0))),
        Call::Cycles(count) => Answer::Done(cycles(run, count)),
        Call::Now => now(run),
        Call::Place(place) => Answer::State(number(run.place(place).map(place_number))),
        Call::Task(row) => Answer::State(number(run.task(row).map(stage_number))),
    }
}
