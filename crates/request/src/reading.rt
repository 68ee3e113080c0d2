// The sheet that a program is given.
ghost use Rattle.std.specs.Prelude.{◌≡◌, ◌+◌, IfOk, IfSome, take, vec_items};

use sheet::LIMIT;
use std::alloc::Allocator;
use std::io;
use std::io::Read;

// The sheet, and one byte more if it is too long.
pub fn read_sheet<R: Read + Drop, A: Allocator>(alloc: A, input: R) -> io::Result<Vec<u8, A>>
    // How many bytes there are is known only where the input's bytes are.
    ensures { IfOk result (λ read. IfSome (R.remaining input) (λ bytes. vec_items read ≡ take (LIMIT + 1) bytes)) }
{
    let mut sheet = Vec::new(alloc);
    input.take(LIMIT as u64 + 1).read_to_end(&mut sheet)?;
    Ok(sheet)
}

#[cfg(test)]
mod tests {
    use super::*;

    #[test]
    fn a_sheet_is_read_whole(rt: HostRuntime) -> io::Result<()> {
        let sheet = read_sheet(rt.alloc(), b"C         2\n".as_slice())?;
        assert_eq!(rt; sheet.as_slice(), b"C         2\n".as_slice());
        Ok(())
    }

    #[test]
    fn a_long_sheet_has_one_byte_more(rt: HostRuntime) -> io::Result<()> {
        let long = vec![in rt.alloc(); b' '; 70_000]?;
        let sheet = read_sheet(rt.alloc(), long.as_slice())?;
        assert_eq!(rt; sheet.len(), 65_537);
        Ok(())
    }
}
