// The cases worked by hand, shown of the definitions.
#![tactic(auto)]

ghost use Rattle.std.specs.Prelude.{◌≡◌, true};
ghost use Rattle.worked.specs.Worked.{WorkedByHand};

// Always true; its promise is the cases worked by hand.
pub fn worked_by_hand() -> bool
    ensures answer { result ≡ true }
    ensures cases { WorkedByHand }
{
    true
}
