// Compares the listing of each sheet with the expected one.
use crate::cases::{Case, Cases};
use answering::answer_sheet;

fn agrees(rt: &impl AllocGlobal, case: &Case) -> anyhow::Result<bool> {
    let listing = answer_sheet(rt.alloc(), case.sheet)?;
    Ok(listing.as_slice() == case.expected)
}

// Prints a line for each case that differs, and at the end how many agree.
pub(crate) fn compare_all(
    rt: &(impl Print + AllocGlobal),
    file: &str,
    bytes: &[u8],
) -> anyhow::Result<()> {
    let mut agreed = 0u32;
    for case in Cases::new(bytes) {
        let case = case?;
        if agrees(rt, &case)? {
            agreed = agreed.saturating_add(1);
        } else {
            println!(rt; "{file}: case {} differs", case.number)?;
        }
    }
    println!(rt; "{file}: {agreed} cases agree")?;
    Ok(())
}
