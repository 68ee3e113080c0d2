// The replay of a case: its questions in turn, to the check and to a run.
use crate::calls;
use crate::steps::{Answer, Difference, Question, Step};
use arbiter::Arbiter;
use cluster::SetUpRefusal;
use date_check::{Dates, check};
use plan::closed::ClosedPlan;
use run::{Refused, Run};
use std::alloc::Global;
use std::mem;

// A plan and its dates; the arbiters are here until a run has them.
#[derive(Drop)]
pub(crate) struct Replay<'r, A: Arbiter> {
    heap: Global,
    plan: &'r ClosedPlan,
    dates: &'r [Dates],
    arbiters: Vec<A>,
    run: Option<Run<'r, A>>,
}

// A refusal's number and the row that it names.
fn refused(number: u32, row: Option<usize>) -> Answer {
    Answer::Verdict {
        number: u64::from(number),
        row: row.unwrap_or(0) as u64,
    }
}

// The row that a refusal of a set-up names.
fn late_row(refusal: SetUpRefusal) -> Option<usize> {
    match refusal {
        SetUpRefusal::Late(row) => Some(row),
        _ => None,
    }
}

const PASSED: Answer = Answer::Verdict { number: 0, row: 0 };

impl<'r, A: Arbiter + Drop> Replay<'r, A> {
    pub(crate) fn new(
        heap: Global,
        plan: &'r ClosedPlan,
        dates: &'r [Dates],
        arbiters: Vec<A>,
    ) -> Replay<'r, A> {
        Replay {
            heap,
            plan,
            dates,
            arbiters,
            run: None,
        }
    }

    fn check(&self) -> Answer {
        match check(self.plan, self.arbiters.as_slice(), self.dates) {
            Ok(()) => PASSED,
            Err(refusal) => refused(refusal.number(), refusal.row()),
        }
    }

    fn post(&mut self, bank: usize, source: usize, picks: bool) -> Answer {
        let Some(arbiter) = self.arbiters.get_mut(bank) else {
            return Answer::Absent;
        };
        if let Err(refusal) = arbiter.post(source) {
            return Answer::Done(u64::from(refusal.number()));
        }
        if picks {
            let _ = arbiter.pick();
        }
        Answer::Done(0)
    }

    fn set_up(&mut self) -> Answer {
        let arbiters = mem::replace(&mut self.arbiters, Vec::new(self.heap));
        match Run::set_up(self.plan, self.dates, arbiters) {
            Ok(run) => {
                self.run = Some(run);
                PASSED
            }
            Err(Refused { refusal, arbiters }) => {
                self.arbiters = arbiters;
                refused(refusal.number(), late_row(refusal))
            }
        }
    }

    fn answer(&mut self, question: Question) -> Answer {
        match question {
            Question::Check => self.check(),
            Question::Post {
                bank,
                source,
                picks,
            } => self.post(bank, source, picks),
            Question::SetUp => self.set_up(),
            Question::Run(call) => match &mut self.run {
                Some(run) => calls::answer(run, call),
                None => Answer::Absent,
            },
        }
    }

    // The first step whose answer is not the expected one.
    pub(crate) fn first_difference(&mut self, steps: &[Step]) -> Option<Difference> {
        // A loop, since each answer changes the run.
        for step in steps {
            let got = self.answer(step.question);
            if got != step.answer {
                return Some(Difference {
                    line: step.line,
                    expected: step.answer,
                    got,
                });
            }
        }
        None
    }
}
