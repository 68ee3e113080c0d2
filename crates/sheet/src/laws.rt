// The law of reading, on the contract of a function of its own.
ghost use Rattle.std.specs.Prelude.{◌≡◌, true};
ghost use Rattle.sheet.specs.Laws.{Inverse};

// Always true; its promise is that reading is the inverse of writing.
pub fn reading_inverts_writing() -> bool
    ensures answer { result ≡ true }
    ensures exact { Inverse }
{
    true
}
