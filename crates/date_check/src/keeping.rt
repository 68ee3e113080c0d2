// What soundness does not depend on.
ghost use Rattle.std.specs.Prelude.{◌≡◌, true};
ghost use Rattle.date_check.specs.Keeping.{SoundnessKeeps};

use arbiter::Arbiter;

// Always true; its promise is that neither the arbiters' states nor rows behind the tasks' decide whether dates are sound.
pub fn soundness_keeps<A: Arbiter>() -> bool
    ensures answer { result ≡ true }
    ensures keeps { SoundnessKeeps A.model }
{
    true
}
