// Follows one task of a sheet through the layers, and says in plain words what was done and which promise covers it.
#![tactic(auto)]

mod bounds;
mod dating;
mod notes;

use anyhow::Context;
use loader::loading::load;
use plan::open::OpenPlan;
use request::{Followed, read_sheet, wanted_row};
use sheet::{LIMIT, TOO_LONG};
use std::env;

fn main(rt: HostRuntime) -> anyhow::Result<()> {
    let heap = rt.alloc();
    // Without an argument the newest task is followed, as with an empty one.
    let name = env::args(&rt)?.nth(1).unwrap_or(String::new(heap));
    let bytes = read_sheet(heap, rt.stdin())?;
    if bytes.len() > LIMIT {
        return notes::fault(&rt, TOO_LONG, 0, 0);
    }
    let mut plan = OpenPlan::new(heap);
    let loaded = match load(heap, &mut plan, bytes.as_slice()) {
        Ok(loaded) => loaded,
        Err(fault) => return notes::fault(&rt, fault.number(), fault.line, fault.column),
    };
    let plan = plan.close();
    let followed = wanted_row(&loaded, name.as_bytes())
        .and_then(|row| Followed::new(&plan, row))
        .context("the sheet has no task of that name")?;
    notes::sheet_read(&rt, &plan)?;
    notes::row_accepted(&rt, &followed, &loaded)?;
    notes::waits(&rt, &followed, &loaded)?;
    notes::demands(&rt, &followed)?;
    if let Some(make) = loaded.make {
        bounds::bounds(&rt, &followed, make)?;
        dating::dates(&rt, &followed, make)?;
    }
    notes::refused_line(&rt, bytes.as_slice())
}
