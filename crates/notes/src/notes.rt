// The notes, one function for each layer.
use anyhow::Context;
use listing::{Answer, list};
use loader::loading::load;
use loader::noting::Loaded;
use plan::closed::ClosedPlan;
use plan::open::OpenPlan;
use request::Followed;

fn name_of<'a>(loaded: &Loaded<'a>, row: usize) -> &'a str {
    match loaded.names.get(row) {
        Some(name) => std::str::from_utf8(name).unwrap_or("?"),
        None => "?",
    }
}

pub(crate) fn sheet_read(rt: &impl Print, plan: &ClosedPlan) -> anyhow::Result<()> {
    let tasks = plan.len();
    println!(rt;
        "The sheet was read to its end. Each line is the one way to write its row (Sheet::next)."
    )?;
    println!(rt;
        "All its rows are in the plan, in order: {tasks} tasks with their demands and the rows they name (load)."
    )?;
    let head = plan.extent();
    println!(rt;
        "Head: {} places, {} banks, {} cycles an access, a period of {} cycles.",
        head.places, head.banks, head.latency, head.period
    )?;
    Ok(())
}

pub(crate) fn row_accepted(
    rt: &impl Print,
    followed: &Followed,
    loaded: &Loaded,
) -> anyhow::Result<()> {
    let Followed { row, task, .. } = followed;
    let name = name_of(loaded, *row);
    let place = task.place;
    println!(rt; "\nThe task followed is {name}, row {row}, at place {place}.")?;
    println!(rt;
        "It needs {} cycles alone, and does not start before {}.",
        task.cycles, task.earliest
    )?;
    println!(rt;
        "Its row passed every question of the plan; a refused row changes nothing (OpenPlan::task)."
    )?;
    Ok(())
}

pub(crate) fn waits(rt: &impl Print, followed: &Followed, loaded: &Loaded) -> anyhow::Result<()> {
    println!(rt; "\nIt waits for earlier rows only (ClosedPlan::waits):")?;
    for other in 0..followed.row {
        if followed.plan.waits(followed.row, other) == Ok(true) {
            let name = name_of(loaded, other);
            println!(rt; "  row {other}, {name}")?;
        }
    }
    Ok(())
}

pub(crate) fn demands(rt: &impl Print, followed: &Followed) -> anyhow::Result<()> {
    println!(rt; "\nIts accesses, bank by bank (ClosedPlan::demand):")?;
    for bank in 0..followed.plan.extent().banks {
        if let Ok(count) = followed.plan.demand(followed.row, bank) {
            println!(rt; "  bank {bank}: {count}")?;
        }
    }
    Ok(())
}

// Loads the sheet with a broken line behind it, to show what a fault says and what it leaves.
pub(crate) fn refused_line(rt: &(impl Print + AllocGlobal), sheet: &[u8]) -> anyhow::Result<()> {
    let heap = rt.alloc();
    let mut broken = Vec::from_slice(heap, sheet)?;
    broken.extend_from_slice(b"T        99         1         0        extra\n")?;
    let mut plan = OpenPlan::new(heap);
    if let Err(fault) = load(heap, &mut plan, broken.as_slice()) {
        println!(rt;
            "\nWith a task at place 99 behind it the sheet is refused, and listed as (list):"
        )?;
        self::fault(rt, fault.number(), fault.line, fault.column)?;
        let kept = plan.close();
        let tasks = kept.len();
        println!(rt; "The plan then has exactly the rows before that line: {tasks} tasks (load).")?;
    }
    Ok(())
}

// The listing of a fault.
pub(crate) fn fault(
    rt: &impl Print,
    number: u32,
    line: usize,
    column: usize,
) -> anyhow::Result<()> {
    let answer = Answer::Fault {
        number,
        line,
        column,
    };
    // A listing is written into memory that is lent: that of a fault has three columns.
    let mut memory = [b' '; 80];
    let n = list(&mut memory, &answer)
        .ok()
        .context("the listing does not fit")?;
    if let Some(text) = memory
        .get(0..n)
        .and_then(|listed| std::str::from_utf8(listed).ok())
    {
        rt.print(text)?;
    }
    Ok(())
}
