// Every ring is lawful.
ghost use Rattle.std.specs.Prelude.{◌≡◌, true};
ghost use Rattle.arbiter.specs.Laws.{Lawful};
ghost use Rattle.rings.specs.Rings.{ring};

use crate::Ring;

// Always true; its promise is that rings keep the laws of arbiters, which names the definition of a ring as `arbiter::laws` cannot.
pub fn laws() -> bool
    ensures answer { result ≡ true }
    ensures lawful { Lawful ring }
{
    arbiter::laws(&Ring::new(1))
}
