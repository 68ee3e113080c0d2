// Reads a sheet from standard input and prints its listing.
#![tactic(auto)]

use answering::answer_sheet;
use request::read_sheet;
use std::io::Write;

fn main(rt: HostRuntime) -> anyhow::Result<()> {
    let sheet = read_sheet(rt.alloc(), rt.stdin())?;
    let listing = answer_sheet(rt.alloc(), sheet.as_slice())?;
    rt.stdout().write_all(listing.as_slice())?;
    Ok(())
}
