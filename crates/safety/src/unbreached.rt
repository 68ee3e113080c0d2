// What holds of every run, whatever its arbiters.
ghost use Rattle.std.specs.Prelude.{◌≡◌, true};
ghost use Rattle.cluster.specs.Runs.{NeverTurnedAway, SoundUnbreached};
ghost use Rattle.safety.specs.Promises.{AnalysedChecked, CheckExact, CheckedUnbreached};

use arbiter::Arbiter;

// Always true; its promise is that no run breaches sound dates: neither those that the check passes, which are exactly the sound ones, nor those that the analysis hands out.
// And no arbiter turns away an ask that the rules take.
pub fn never_breached<A: Arbiter>() -> bool
    ensures answer { result ≡ true }
    ensures sound { SoundUnbreached A.model }
    ensures exact { CheckExact A.model }
    ensures checked { CheckedUnbreached A.model }
    ensures analysed { AnalysedChecked A.model }
    ensures asks { NeverTurnedAway A.model }
{
    true
}
