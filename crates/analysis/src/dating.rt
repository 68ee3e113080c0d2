// What is known of the dates of every plan, before any of them is computed.
ghost use Rattle.std.specs.Prelude.{◌≡◌, true};
ghost use Rattle.analysis.specs.Plans.{PlansAreDated};

use arbiter::Arbiter;
use consistency::{dates_are_determined, rounds_end};

// Always true; its promise is that every plan with fitting arbiters has exactly one table of consistent dates, that the rounds find it, and that it is sound if all finishes lie within the period.
pub fn plans_are_dated<A: Arbiter>() -> bool
    ensures answer { result ≡ true }
    ensures law { PlansAreDated A.model }
{
    dates_are_determined() && rounds_end()
}
