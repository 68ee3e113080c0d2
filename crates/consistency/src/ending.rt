// Where the rounds end.
ghost use Rattle.std.specs.Prelude.{◌≡◌, true};
ghost use Rattle.consistency.specs.Theorem.{RoundsEnd};

// Always true; its promise is that the rounds end at the consistent dates, after at most 2n − 1 of them.
pub fn rounds_end() -> bool
    ensures answer { result ≡ true }
    ensures law { RoundsEnd }
{
    true
}
