// The notes on dates: what the analysis hands out, and what the check says of it.
use analysis::{Refusal, analyse};
use arbiter::Arbiter;
use date_check::Dates;
use request::Followed;

// The check's words for the dates as they are, a cycle earlier, and a cycle shorter.
const WORDS: [&str; 3] = [
    "As they are",
    "With this task released one cycle earlier",
    "With one cycle less for it",
];

// The dates of the plan, if it has any within its period.
pub(crate) fn dates<A: Arbiter>(
    rt: &(impl Print + AllocGlobal),
    followed: &Followed,
    arbiters: &[A],
) -> anyhow::Result<Option<Vec<Dates>>> {
    println!(rt; "The analysis of all tasks together:")?;
    let mut dates = vec![in rt.alloc(); Dates::default(); followed.plan.len()]?;
    match analyse(followed.plan, arbiters, dates.as_mut_slice()) {
        Ok(rounds) => println!(rt;
            "  In {rounds} rounds it found the one table of consistent dates there is, and all end within the period (analyse)."
        )?,
        Err(refusal) => {
            undated(rt, refusal)?;
            return Ok(None);
        }
    }
    if let Some(d) = dates.get(followed.row) {
        println!(rt;
            "  The task is released at {}, has {} cycles, and finishes by {}.",
            d.release,
            d.response,
            d.finish()
        )?;
    }
    followed.tell_verdicts(rt, arbiters, dates.as_mut_slice(), WORDS)?;
    Ok(Some(dates))
}

fn undated(rt: &impl Print, refusal: Refusal) -> anyhow::Result<()> {
    match refusal {
        Refusal::Late { row, finish } => println!(rt;
            "  The plan is late: row {row} finishes at {finish}, after the period (analyse)."
        )?,
        _ => println!(rt; "  The analysis is refused with {}.", refusal.number())?,
    }
    Ok(())
}
