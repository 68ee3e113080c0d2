// One whole period, in which every place asks for its accesses as soon as it can, and what is seen of one task.
use arbiter::Arbiter;
use cluster::Stage;
use plan::rows::Head;
use request::Followed;
use run::Run;

// When the task started, how many accesses it made, and when it was done.
#[derive(Default, Drop)]
pub(crate) struct Seen {
    pub(crate) started: Option<u64>,
    pub(crate) asked: u64,
    pub(crate) done: Option<u64>,
}

impl Seen {
    fn look<A: Arbiter>(&mut self, run: &Run<A>, row: usize) {
        match run.task(row) {
            Ok(Stage::AtWork) => self.started = self.started.or(Some(run.time())),
            Ok(Stage::Done) => self.done = self.done.or(Some(run.time())),
            _ => {}
        }
    }

    // An access is the task's own between its start and its end.
    fn count(&mut self) {
        if self.started.is_some() && self.done.is_none() {
            self.asked = self.asked.saturating_add(1);
        }
    }
}

// A working place asks for the lowest bank to which it has an access left. Answers whether it made one.
fn ask_lowest<A: Arbiter>(run: &mut Run<A>, place: usize, banks: usize) -> bool {
    (0..banks).any(|bank| run.ask(place, bank).is_ok())
}

// Every place asks. Answers whether this one made an access.
fn ask_all<A: Arbiter>(run: &mut Run<A>, head: Head, watched: usize) -> bool {
    let mut made = false;
    for place in 0..head.places {
        let asked = ask_lowest(run, place, head.banks);
        made |= asked && place == watched;
    }
    made
}

pub(crate) fn whole_period<A: Arbiter>(run: &mut Run<A>, followed: &Followed) -> Seen {
    let head = followed.plan.extent();
    let mut seen = Seen::default();
    seen.look(run, followed.row);
    for _ in 0..head.period {
        if ask_all(run, head, followed.task.place) {
            seen.count();
        }
        if run.cycle().is_err() {
            return seen;
        }
        seen.look(run, followed.row);
    }
    seen
}
