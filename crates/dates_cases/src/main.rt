// Answers the sheets of two files, and compares each listing with the expected one: cases worked by hand, and cases whose
// listings another program wrote.
#![tactic(auto)]

mod cases;
mod comparing;

use std::fs;

fn main(rt: HostRuntime) -> anyhow::Result<()> {
    for file in ["worked.txt", "sheets.txt"] {
        let bytes = fs::read(&rt, file)?;
        comparing::compare_all(&rt, file, bytes.as_slice())?;
    }
    Ok(())
}
