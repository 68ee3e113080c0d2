// What releases and systems determine.
ghost use Rattle.std.specs.Prelude.{◌≡◌, true};
ghost use Rattle.consistency.specs.Theorem.{DatesAreDetermined};

// Always true; its promise is that given releases have one table of smallest responses, and every system one table of consistent dates.
pub fn dates_are_determined() -> bool
    ensures answer { result ≡ true }
    ensures law { DatesAreDetermined }
{
    true
}
