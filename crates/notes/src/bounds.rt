// The notes on memory: how long a task may be held up at each bank if every other task met it.
use anyhow::anyhow;
use arbiter::Arbiter;
use bostan::pile;
use layers::Alternation;
use plan::rows::Task;
use request::Followed;
use rings::Ring;
use sheet::lines::Make;

// The accesses to a bank: a task's own, and by place those of all tasks at other places.
#[derive(Drop)]
struct Accesses {
    place: usize,
    own: u64,
    others: [u64; 32],
}

// The accesses of all tasks at other places to a bank, by place.
fn others(tasks: &[Task], place: usize, bank: usize) -> [u64; 32] {
    let mut counts = [0u64; 32];
    for task in tasks.iter().filter(|task| task.place != place) {
        if let (Some(count), Some(more)) = (counts.get_mut(task.place), task.demands.get(bank)) {
            *count = count.saturating_add(*more);
        }
    }
    counts
}

// The bound of a core in the pile, level by level; of a unit, in all.
fn pile_levels(rt: &impl Print, at: &Accesses) -> anyhow::Result<u64> {
    if at.place < 16 {
        if let Ok(ring) = Ring::new(16).bound(at.place, at.own, &at.others) {
            println!(rt; "    in the ring of cores {ring}")?;
        }
        let turns = Alternation::new(Ring::new(16), Ring::new(3));
        if let Ok(low) = turns.bound(at.place, at.own, &at.others) {
            println!(rt; "    taking turns with the ring of units {low}")?;
        }
    }
    let all = pile()
        .bound(at.place, at.own, &at.others)
        .map_err(|_| anyhow!("the pile has no such source"))?;
    println!(rt; "    with network receive going first {all}")?;
    Ok(all)
}

fn ring_level(rt: &impl Print, places: usize, at: &Accesses) -> anyhow::Result<u64> {
    let all = Ring::new(places)
        .bound(at.place, at.own, &at.others)
        .map_err(|_| anyhow!("the ring has no such source"))?;
    println!(rt; "    in the ring of places {all}")?;
    Ok(all)
}

// One bank's note: its bound, 0 where the task does not use it.
fn bank_bound(
    rt: &impl Print,
    followed: &Followed,
    make: Make,
    bank: usize,
) -> anyhow::Result<u64> {
    let place = followed.task.place;
    let own = followed.plan.demand(followed.row, bank).unwrap_or(0);
    if own == 0 {
        return Ok(0);
    }
    println!(rt;
        "  bank {bank}: {own} accesses of its own; services that may pass until they are served:"
    )?;
    let at = Accesses {
        place,
        own,
        others: others(followed.plan.tasks(), place, bank),
    };
    // Two arms, as a ring and a pile have levels of their own to tell of.
    match make {
        Make::Bostan => pile_levels(rt, &at),
        Make::Ring => ring_level(rt, followed.plan.extent().places, &at),
    }
}

pub(crate) fn bounds(rt: &impl Print, followed: &Followed, make: Make) -> anyhow::Result<()> {
    println!(rt;
        "\nIf every task at another place met it (Arbiter::bound, whose laws cover every trace of posts and picks):"
    )?;
    let mut services = 0u64;
    for bank in 0..followed.plan.extent().banks {
        services = services.saturating_add(bank_bound(rt, followed, make, bank)?);
    }
    let latency = followed.plan.extent().latency;
    let cycles = followed.task.cycles;
    let most = services.saturating_mul(latency).saturating_add(cycles);
    println!(rt;
        "  {cycles} cycles alone and {services} services of {latency} cycles: at most {most} cycles."
    )?;
    Ok(())
}
