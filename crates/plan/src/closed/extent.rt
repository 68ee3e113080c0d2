// How much a closed plan takes up.
ghost use Rattle.std.specs.Prelude.{◌≡◌, ◌≤◌, ◌↔◌, length, IsTrue, Some};
ghost use Rattle.plan.specs.Plans.{closed};
ghost use Rattle.plan.specs.Rules.{Bounded, banks_of, latency_of, period_of, places_of};

use crate::closed::ClosedPlan;
use crate::rows::Head;

impl ClosedPlan {
    // The head; a plan without one has no places, no banks, no latency and no period.
    pub fn extent(&self) -> Head
        ensures places { result.places ≡ places_of (closed self.now).head }
        ensures banks { result.banks ≡ banks_of (closed self.now).head }
        ensures latency { result.latency ≡ latency_of (closed self.now).head }
        ensures period { result.period ≡ period_of (closed self.now).head }
        ensures limits { Bounded result }
        ensures known { 1 ≤ length (closed self.now).rows → (closed self.now).head ≡ Some result }
    {
        self.head.unwrap_or_default()
    }

    // How many tasks it has.
    pub fn len(&self) -> usize
        ensures { result ≡ length (closed self.now).rows }
    {
        self.tasks.len()
    }

    pub fn is_empty(&self) -> bool
        ensures { IsTrue result ↔ (length (closed self.now).rows ≡ 0) }
    {
        self.tasks.is_empty()
    }
}
