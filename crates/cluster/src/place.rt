// A place of the cluster, and what happens to it.
ghost use Rattle.std.specs.Prelude.{◌≡◌};
ghost use Rattle.cluster.specs.Cycles.{is_idle};
ghost use Rattle.cluster.specs.Places.{access_used, after, cycle_used};

// A task at work: its row, and the cycles and the accesses, bank by bank, that it has left. The accesses stand in place, for all 16 banks: a run takes no memory.
#[derive(Clone, Copy, PartialEq, Eq, Debug)]
pub struct Job {
    pub task: usize,
    pub cycles: u64,
    pub accesses: [u64; 16],
}

// A place waits or is served at a bank.
#[derive(Clone, Copy, PartialEq, Eq, Debug)]
pub enum Place {
    Idle,
    Working(Job),
    Waiting(Job, usize),
    Served(Job, usize),
}

// What happens to a place: its task asks for a bank, the bank picks it, a cycle is used, its service ends.
#[derive(Clone, Copy, PartialEq, Eq, Debug)]
pub enum Event {
    Asked(usize),
    Picked,
    CycleUsed,
    ServiceEnded,
}

impl Job {
    // There is no bank from 16 on (a write through `get_mut` tells the proof nothing of the accesses).
    fn access_used(mut self, bank: usize) -> Job
        ensures { result ≡ access_used self bank }
    {
        if bank < 16 {
            self.accesses[bank] = self.accesses[bank].saturating_sub(1);
        }
        self
    }

    fn cycle_used(self) -> Job
        ensures { result ≡ cycle_used self }
    {
        Job {
            cycles: self.cycles.saturating_sub(1),
            ..self
        }
    }
}

impl Place {
    pub fn is_idle(self) -> bool
        ensures { result ≡ is_idle self }
    {
        matches!(self, Place::Idle)
    }

    // The place and the event decide together; an event that does not concern the place leaves it as it is.
    pub fn on(&mut self, event: Event)
        ensures { self.new ≡ after self.old event }
    {
        *self = match (*self, event) {
            (Place::Working(job), Event::Asked(bank)) => Place::Waiting(
                job.access_used(bank),
                bank,
            ),
            (Place::Working(job), Event::CycleUsed) => Place::Working(job.cycle_used()),
            (Place::Waiting(job, bank), Event::Picked) => Place::Served(job, bank),
            (Place::Served(job, _), Event::ServiceEnded) => Place::Working(job),
            (place, _) => place,
        };
    }
}
