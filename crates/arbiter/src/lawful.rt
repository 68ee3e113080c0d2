// Every arbiter is lawful.
ghost use Rattle.std.specs.Prelude.{◌≡◌, true};
ghost use Rattle.arbiter.specs.Laws.{Lawful};

use crate::Arbiter;

// Always true; its promise is what a caller may use of any arbiter.
pub fn laws<A: Arbiter>(_arbiter: &A) -> bool
    ensures answer { result ≡ true }
    ensures lawful { Lawful A.model }
{
    true
}
