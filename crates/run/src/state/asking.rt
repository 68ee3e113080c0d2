// A task asks for a bank.
ghost use Rattle.std.specs.Prelude.{◌≡◌, None, OnOk};
ghost use Rattle.std.specs.Result.{result_err};
ghost use Rattle.cluster.specs.Calls.{Ask, Asking, ask_refusal};
ghost use Rattle.run.specs.Views.{HasBank, Moves, Stays, planned, state};

use crate::state::Run;
use arbiter::Arbiter;
use cluster::{CallRefusal, Event, Place};

impl<A: Arbiter> Run<'_, A> {
    // Does a breach stand? Are place and bank the plan's? Is a task at work there? Is its place working? Has it an access to that bank left?
    fn may_ask(&self, place: usize, bank: usize) -> Result<(), CallRefusal>
        ensures refusal { result_err result ≡ ask_refusal (planned self.now) (state self.now) place bank }
        ensures known { OnOk result (HasBank self.now bank) }
    {
        if self.breach.is_some() {
            return Err(CallRefusal::Breached);
        }
        let head = self.plan.extent();
        if place >= head.places || bank >= head.banks {
            return Err(CallRefusal::Unknown);
        }
        match self.places[place] {
            Place::Idle => Err(CallRefusal::Idle),
            Place::Working(job) if job.accesses[bank] == 0 => Err(CallRefusal::Spent),
            Place::Working(_) => Ok(()),
            Place::Waiting(_, _) | Place::Served(_, _) => Err(CallRefusal::Busy),
        }
    }

    // The access is used up, and the place posts and waits.
    fn post(&mut self, place: usize, bank: usize) -> Result<(), CallRefusal>
        requires { HasBank self.old bank }
        ensures { Moves (λ s t. Asking A.model None s place bank result t) self.old self.new }
    {
        self.arbiters[bank]
            .post(place)
            .map_err(|_| CallRefusal::Busy)?;
        self.happen(place, Event::Asked(bank));
        Ok(())
    }

    // The task at work at a place asks for an access to a bank.
    pub fn ask(&mut self, place: usize, bank: usize) -> Result<(), CallRefusal>
        ensures asks { Ask A.model (planned self.old) (state self.old) place bank result (state self.new) }
        ensures stays { Stays self.old self.new }
    {
        self.may_ask(place, bank)?;
        self.post(place, bank)
    }
}
