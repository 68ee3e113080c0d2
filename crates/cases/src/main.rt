// Loads each sheet of a folder, and prints what came of it: the fault or none, and how many tasks the plan then has.
#![tactic(auto)]

use loader::loading::load;
use plan::open::OpenPlan;
use std::fs;
use std::fs::Files;

fn print_case(rt: &(impl Print + AllocGlobal + Files), name: &str) -> anyhow::Result<()> {
    let heap = rt.alloc();
    let path = format!(in heap; "sheets/{name}")?;
    let bytes = fs::read(rt, path.as_str())?;
    let mut plan = OpenPlan::new(heap);
    match load(heap, &mut plan, bytes.as_slice()) {
        Ok(_) => print!(rt; "{name}: loaded")?,
        Err(fault) => print!(rt;
            "{name}: {} at line {} column {}",
            fault.number(),
            fault.line,
            fault.column
        )?,
    }
    println!(rt; ", {} tasks", plan.close().len())?;
    Ok(())
}

fn main(rt: HostRuntime) -> anyhow::Result<()> {
    let names = fs::read_to_string(&rt, "index")?;
    for name in names.lines() {
        print_case(&rt, name)?;
    }
    Ok(())
}
