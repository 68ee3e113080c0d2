// Cuts the first line off the bytes of a sheet.
ghost use Rattle.std.specs.Prelude.{◌≡◌, [], MatchOption};
ghost use Rattle.sheet.specs.Steps.{First};

// The first line, with its line feed if it has one.
pub(crate) fn first_line(bytes: &[u8]) -> Option<&[u8]>
    ensures { MatchOption result (bytes.now ≡ []) (λ line. First bytes.now line.now) }
{
    bytes.split_inclusive(|b| *b == b'\n').next()
}
