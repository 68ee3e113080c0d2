// Arbiters: which source of a memory bank is served next.
#![tactic(auto)]

ghost use Rattle.std.specs.Prelude.{◌≡◌};
ghost use Rattle.arbiter.specs.Meaning.{Model};
ghost use Rattle.arbiter.specs.Laws.{Lawful};
ghost use Rattle.arbiter.specs.Answers.{waits_answer, someone, post_answer, AfterPost, AfterPick, bound_answer};

mod accepting;
mod fair;
mod lawful;
mod refusal;

pub use accepting::{LIMIT, accept};
pub use fair::fair_bound;
pub use lawful::laws;
pub use refusal::Refusal;

// Whatever decides which source of one bank is served next. Its sources are numbered from 0 to below its width.
pub trait Arbiter {
    // What its states mean: its width and bounds, who waits, who was picked last, and what posts and picks may lead to.
    ghost model: { Model Self };

    fn width(&self) -> usize
        ensures { result ≡ model.width self.now };

    // Does s wait?
    fn waits(&self, s: usize) -> Result<bool, Refusal>
        ensures { result ≡ waits_answer (model.width self.now) (model.waiting self.now) s };

    // Does anyone wait?
    fn anyone(&self) -> bool
        ensures { result ≡ someone (model.width self.now) (model.waiting self.now) };

    // Makes s wait; a refused post changes nothing.
    fn post(&mut self, s: usize) -> Result<(), Refusal>
        ensures answer { result ≡ post_answer (model.width self.old) (model.waiting self.old) s }
        ensures state { AfterPost model self.old s self.new result };

    // The source that is served next, which then waits no longer and is the last picked; none if nobody waits.
    fn pick(&mut self) -> Option<usize>
        ensures { AfterPick model self.old self.new result };

    // Source, own accesses and counts stay three arguments: the libraries make them anew for each call.
    // How many services may pass until own accesses of s are served, if each other source has as many accesses as its count says.
    fn bound(&self, s: usize, own: u64, counts: &[u64]) -> Result<u64, Refusal>
        ensures { result ≡ bound_answer (model.width self.now) (model.bound self.now) s own counts.now };

    // What the calls do, and the laws of the bound.
    ghost lawful: { Lawful model };
}
