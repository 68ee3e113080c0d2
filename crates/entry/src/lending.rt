// The listing of a sheet, written into memory that the caller lends.
ghost use Rattle.entry.specs.Listings.{Listed, Put};

use answering::answer_sheet;
use std::alloc::Global;

// Puts a text at the front of the memory, and answers its length; 0 if the memory is too short for it, as the call that C makes answers it.
fn put(out: &mut [u8], text: &[u8]) -> usize
    ensures { Put text.now out.old result out.new }
{
    if out.len() < text.len() {
        return 0;
    }
    let length = text.len();
    out[..length].copy_from_slice(text);
    length
}

// Writes the listing that answers a sheet at the front of the memory, and answers its length. Where memory is too short it answers 0, and writes nothing.
// (No listing is 0, as a program in C can read no Result.)
#[unsafe(no_mangle)]
pub extern "C" fn jemmaril_listing(heap: Global, sheet: &[u8], out: &mut [u8]) -> usize
    ensures { Listed sheet.now out.old result out.new }
{
    match answer_sheet(heap, sheet) {
        Ok(text) => put(out, text.as_slice()),
        Err(_) => 0,
    }
}
