// The parts of a line: bytes, and texts and numbers, each of these right-justified in its column.
// (No Display: a name is bytes and need not be UTF-8, and no clause of `write!` says that it succeeds where the memory suffices.)
ghost use Rattle.std.specs.Prelude.{◌≡◌, ◌+◌, ◌≤◌, decimal, length};
ghost use Rattle.listing.specs.Memory.{Measured, AtFront};
ghost use Rattle.listing.specs.Parts.{text_of, text_of_all};

use itoa::write_digits;

// One part of a line: a byte, or a text or a number in a column of this width. What is wider than its column is not cut.
#[derive(Clone, Copy)]
pub(crate) enum Part<'t> {
    Byte(u8),
    Text(usize, &'t [u8]),
    Number(usize, u64),
}

// A number below this has at most 10 digits: in a column of that width or more, none need be counted.
const TEN_DIGITS: u64 = 10_000_000_000;

// How many digits a number has.
fn digits(n: u64) -> usize
    ensures count { result ≡ length (decimal n) }
    ensures few { result ≤ 20 }
{
    if n < 10 { 1 } else { digits(n / 10) + 1 }
}

impl Part<'_> {
    fn len(&self) -> usize
        ensures { result ≡ length (text_of self.now) }
    {
        match self {
            Part::Byte(_) => 1,
            Part::Text(width, text) => text.len().max(*width),
            Part::Number(width, n) if *n < TEN_DIGITS && 10 <= *width => *width,
            Part::Number(width, n) => digits(*n).max(*width),
        }
    }

    fn put(&self, out: &mut [u8]) -> usize
        requires { length (text_of self.now) ≤ length out.old }
        ensures { AtFront (text_of self.now) out.old result out.new }
    {
        let end = self.len();
        let start = match self {
            Part::Byte(byte) => {
                out[0] = *byte;
                return 1;
            }
            Part::Text(_, text) => {
                let start = end - text.len();
                out[start..end].copy_from_slice(text);
                start
            }
            Part::Number(_, n) => write_digits(*n, out, end),
        };
        out[..start].fill(b' ');
        end
    }
}

// Writes the parts at the front of the memory, and answers their length.
pub(crate) fn put(out: &mut [u8], parts: &[Part]) -> usize
    requires { length (text_of_all parts.now) ≤ length out.old }
    ensures { AtFront (text_of_all parts.now) out.old result out.new }
{
    let mut end = 0;
    for part in parts {
        end += part.put(&mut out[end..]);
    }
    end
}

// This size with that of the parts, or none where a usize cannot hold it.
pub(crate) fn add_sizes(size: usize, parts: &[Part]) -> Option<usize>
    ensures { Measured result (size + length (text_of_all parts.now)) }
{
    // A loop: with `try_fold` the goal stayed open.
    let mut sum = size;
    for part in parts {
        sum = sum.checked_add(part.len())?;
    }
    Some(sum)
}
