// The notes on dates: a table that gives each task time of its own, and what the check says of it.
use arbiter::Arbiter;
use bostan::pile;
use date_check::Dates;
use plan::closed::ClosedPlan;
use request::Followed;
use rings::Ring;
use sheet::lines::Make;
use std::alloc::{AllocError, Global};

// One task after the other, so that no two of them meet.
fn table(heap: Global, plan: &ClosedPlan) -> Result<Vec<Dates>, AllocError> {
    let latency = plan.extent().latency;
    let mut dates = Vec::new(heap);
    let mut free = 0u64;
    for task in plan.tasks() {
        let accesses = task
            .demands
            .iter()
            .fold(0u64, |sum, count| sum.saturating_add(*count));
        let start = free.max(task.earliest);
        let time = latency.saturating_mul(accesses).saturating_add(task.cycles);
        free = start.saturating_add(time);
        dates.push(Dates {
            release: u32::try_from(start).unwrap_or(u32::MAX),
            response: u32::try_from(time).unwrap_or(u32::MAX),
        })?;
    }
    Ok(dates)
}

fn verdicts<A: Arbiter>(
    rt: &(impl Print + AllocGlobal),
    followed: &Followed,
    arbiters: &[A],
) -> anyhow::Result<()> {
    let mut dates = table(rt.alloc(), followed.plan)?;
    if let Some(d) = dates.get(followed.row) {
        println!(rt;
            "  It is released at {}, has {} cycles, and finishes by {}.",
            d.release,
            d.response,
            d.finish()
        )?;
    }
    let words = [
        "As it is",
        "Released one cycle earlier",
        "With one cycle less",
    ];
    followed.tell_verdicts(rt, arbiters, dates.as_mut_slice(), words)?;
    Ok(())
}

pub(crate) fn dates(
    rt: &(impl Print + AllocGlobal),
    followed: &Followed,
    make: Make,
) -> anyhow::Result<()> {
    let head = followed.plan.extent();
    println!(rt; "\nDated one after the other, no two tasks meet:")?;
    // Two arms, as rings and piles are two types.
    match make {
        Make::Bostan => {
            let piles: Vec<_> = (0..head.banks).map(|_| pile()).collect(rt.alloc())?;
            verdicts(rt, followed, piles.as_slice())
        }
        Make::Ring => {
            let rings: Vec<_> = (0..head.banks)
                .map(|_| Ring::new(head.places))
                .collect(rt.alloc())?;
            verdicts(rt, followed, rings.as_slice())
        }
    }
}
