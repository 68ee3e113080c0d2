// A sheet, and how far it has been read.
mod calls;
mod next;

ghost use Rattle.std.specs.Prelude.{◌≤◌, length};

// The next line begins at `at`, after as many as `lines` says; the bytes stay whole, since the text is promised.
// No Model: a caller has four views of it, the text, what is left, the lines that were read, and what reading on gives.
#[derive(Drop)]
pub struct Sheet<'a> {
    bytes: &'a [u8],
    at: usize,
    lines: usize,
    ghost inside: { at ≤ length bytes.now },
    ghost counted: { lines ≤ at },
}
