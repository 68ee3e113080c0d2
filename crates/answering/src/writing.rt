// The text of a listing.
ghost use Rattle.std.specs.Prelude.{◌≡◌, IfOk};
ghost use Rattle.listing.specs.Listing.{fault, listing as listing_of};

use crate::memory::OutOfMemory;
use listing::{Answer, list, size};
use std::alloc::Global;

// The listing of an answer, in memory of exactly its length.
pub(crate) fn write(heap: Global, answer: &Answer) -> Result<Vec<u8>, OutOfMemory>
    ensures { IfOk result (λ text. text.items ≡ listing_of answer.now) }
{
    let length = size(answer).ok_or(OutOfMemory)?;
    let mut text = vec![in heap; b' '; length]?;
    list(text.as_mut_slice(), answer).unwrap();
    Ok(text)
}

pub(crate) fn write_fault(
    heap: Global,
    number: u32,
    line: usize,
    column: usize,
) -> Result<Vec<u8>, OutOfMemory>
    ensures { IfOk result (λ text. text.items ≡ fault number line column) }
{
    let answer = Answer::Fault {
        number,
        line,
        column,
    };
    write(heap, &answer)
}
