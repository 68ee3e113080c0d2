// Dates the tasks of a sheet, runs one period under these dates, and says what became of one task.
#![tactic(auto)]

mod dating;
mod running;
mod watching;

use anyhow::{Context, anyhow, bail};
use arbiter::Arbiter;
use bostan::pile;
use loader::loading::load;
use plan::open::OpenPlan;
use request::{Followed, read_sheet, wanted_row};
use rings::Ring;
use sheet::LIMIT;
use sheet::lines::Make;
use std::env;

// Dates all tasks, and runs a period under these dates.
fn date_and_run<A: Arbiter + Drop>(
    rt: &(impl Print + AllocGlobal),
    followed: &Followed,
    arbiters: Vec<A>,
) -> anyhow::Result<()> {
    match dating::dates(rt, followed, arbiters.as_slice())? {
        Some(dates) => running::period(rt, followed, dates.as_slice(), arbiters),
        None => Ok(()),
    }
}

// New arbiters, one for each bank, by the sheet's make: two arms, as rings and piles are two types.
fn date_and_run_by_make(
    rt: &(impl Print + AllocGlobal),
    followed: &Followed,
    make: Make,
) -> anyhow::Result<()> {
    let heap = rt.alloc();
    let head = followed.plan.extent();
    match make {
        Make::Ring => {
            let rings = (0..head.banks).map(|_| Ring::new(head.places));
            date_and_run(rt, followed, rings.collect::<Vec<_>>(heap)?)
        }
        Make::Bostan => {
            let piles = (0..head.banks).map(|_| pile());
            date_and_run(rt, followed, piles.collect::<Vec<_>>(heap)?)
        }
    }
}

fn main(rt: HostRuntime) -> anyhow::Result<()> {
    let heap = rt.alloc();
    // Without an argument the newest task is followed, as with an empty one.
    let name = env::args(&rt)?.nth(1).unwrap_or(String::new(heap));
    let bytes = read_sheet(heap, rt.stdin())?;
    if bytes.len() > LIMIT {
        bail!("the sheet is too long");
    }
    let mut plan = OpenPlan::new(heap);
    let loaded = load(heap, &mut plan, bytes.as_slice()).map_err(|_| anyhow!(
        "the sheet is refused: the program dates tells where"
    ))?;
    let plan = plan.close();
    let followed = wanted_row(&loaded, name.as_bytes())
        .and_then(|row| Followed::new(&plan, row))
        .context("the sheet has no task of that name")?;
    match loaded.make {
        Some(make) => date_and_run_by_make(&rt, &followed, make),
        None => Ok(()),
    }
}
