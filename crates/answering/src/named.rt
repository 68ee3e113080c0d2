// A plan with the names of its tasks, and what is listed of it.
ghost use Rattle.std.specs.Prelude.{◌≡◌, length};
ghost use Rattle.plan.specs.Plans.{closed};

use crate::arbiters::new_arbiters;
use crate::memory::OutOfMemory;
use crate::rows::named_rows;
use crate::writing::{write, write_fault};
use analysis::{Refusal, analyse};
use arbiter::Arbiter;
use bostan::pile;
use date_check::Dates;
use listing::Answer;
use plan::closed::ClosedPlan;
use rings::Ring;
use sheet::lines::Make;
use std::alloc::Global;

// One name for each task, in the order of their rows.
#[derive(Clone, Copy)]
pub(crate) struct Named<'p, 'n> {
    pub(crate) heap: Global,
    pub(crate) plan: &'p ClosedPlan,
    pub(crate) names: &'p [&'n [u8]],
    ghost per_task: { length names.now ≡ length (closed plan.now).rows },
}

impl Named<'_, '_> {
    ghost use Rattle.std.specs.Prelude.{IfOk, None};
    ghost use Rattle.answering.specs.Listings.{ListsByMake, ListsGranted, ListsMade, ListsPlan, listed_refusal};
    ghost use Rattle.answering.specs.Named.{names_of, plan_of};

    // The listing by the make of the banks' arbiters. Without a head there is no task.
    pub(crate) fn list(&self, make: Option<Make>) -> Result<Vec<u8>, OutOfMemory>
        requires { make ≡ None → length (plan_of self.now).rows ≡ 0 }
        ensures { IfOk result (λ text. ListsByMake make (plan_of self.now) (names_of self.now) text.items) }
    {
        let places = self.plan.extent().places;
        match make {
            None => write_fault(self.heap, Refusal::NoTask.number(), 0, 0),
            Some(Make::Ring) => self.list_made(|| Ring::new(places)),
            Some(Make::Bostan) => self.list_made(pile),
        }
    }

    // With a new arbiter for each bank.
    fn list_made<A: Arbiter + Drop, F: Fn() -> A>(&self, make: F) -> Result<Vec<u8>, OutOfMemory>
        requires { F.IsAlwaysCallable make }
        ensures { IfOk result (λ text. ListsMade A.model (F.post make) (plan_of self.now) (names_of self.now) text.items) }
    {
        let arbiters = new_arbiters(self.heap, self.plan.extent().banks, make)?;
        self.list_dated(arbiters.as_slice())
    }

    fn list_dated<A: Arbiter>(&self, arbiters: &[A]) -> Result<Vec<u8>, OutOfMemory>
        ensures { IfOk result (λ text. ListsPlan A.model (plan_of self.now) arbiters.now (names_of self.now) text.items) }
    {
        let mut dates = vec![in self.heap; Dates::default(); self.plan.len()]?;
        match analyse(self.plan, arbiters, dates.as_mut_slice()) {
            Ok(rounds) => self.list_granted(rounds, dates.as_slice()),
            Err(refusal) => self.list_refusal(refusal),
        }
    }

    fn list_granted(&self, rounds: u32, dates: &[Dates]) -> Result<Vec<u8>, OutOfMemory>
        requires { length dates.now ≡ length (plan_of self.now).rows }
        ensures { IfOk result (λ text. ListsGranted rounds dates.now (names_of self.now) text.items) }
    {
        let rows = named_rows(self.heap, dates, self.names)?;
        let answer = Answer::Granted {
            rounds,
            rows: rows.as_slice(),
        };
        write(self.heap, &answer)
    }

    // A refusal of the analysis stands outside the sheet.
    fn list_refusal(&self, refusal: Refusal) -> Result<Vec<u8>, OutOfMemory>
        ensures { IfOk result (λ text. text.items ≡ listed_refusal refusal) }
    {
        match refusal {
            Refusal::Late { row, finish } => write(self.heap, &Answer::Late { row, finish }),
            _ => write_fault(self.heap, refusal.number(), 0, 0),
        }
    }
}
