// The notes on a run of one whole period.
use crate::watching::{Seen, whole_period};
use arbiter::Arbiter;
use date_check::Dates;
use request::Followed;
use run::Run;
use safety::never_breached;

fn tell<A: Arbiter>(rt: &impl Print, run: &Run<A>, seen: &Seen, finish: u64) -> anyhow::Result<()> {
    if let Some(time) = seen.started {
        println!(rt;
            "  At {time} the task was released: its place was idle, and all that it waits for were done."
        )?;
    }
    if let Some(time) = seen.done {
        println!(rt;
            "  It made {} accesses and was done at {time}, {} cycles before its finish date.",
            seen.asked,
            finish.saturating_sub(time)
        )?;
    }
    match run.breach() {
        Some(breach) => println!(rt;
            "  At {} a breach of kind {} stands, of row {}.",
            run.time(),
            breach.kind(),
            breach.row()
        )?,
        None => println!(rt;
            "  The period is over, the time is {} again, and no breach stands.",
            run.time()
        )?,
    }
    Ok(())
}

// Only what was set up is run; a refused set-up hands its arbiters back.
pub(crate) fn period<A: Arbiter + Drop>(
    rt: &impl Print,
    followed: &Followed,
    dates: &[Dates],
    arbiters: Vec<A>,
) -> anyhow::Result<()> {
    let Some(date) = dates.get(followed.row) else {
        return Ok(());
    };
    println!(rt;
        "\nA run of one period, in which each task asks for its accesses as soon as it can, lower banks first (Run::set_up, ask, cycle):"
    )?;
    let mut run = match Run::set_up(followed.plan, dates, arbiters) {
        Ok(run) => run,
        Err(refused) => {
            println!(rt;
                "  The set-up is refused with {}.",
                refused.refusal.number()
            )?;
            return Ok(());
        }
    };
    let seen = whole_period(&mut run, followed);
    tell(rt, &run, &seen, date.finish())?;
    if never_breached::<A>() {
        println!(rt;
            "No other run could have broken these dates: whatever the tasks ask for and whenever, over any number of periods, a run under sound dates never breaches (never_breached)."
        )?;
    }
    Ok(())
}
