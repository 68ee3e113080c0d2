// Scan and steam on a ring of two places, with one bank, latency 1 and period 20.
use date_check::{Dates, Refusal, check};
use plan::closed::ClosedPlan;
use plan::open::OpenPlan;
use plan::rows::{Head, Refusal as PlanRefusal};
use rings::Ring;
use std::alloc::Global;
use std::test::Fail;

// Scan: place 0, 5 cycles, 3 accesses. Steam: place 1, 4 cycles, 2 accesses, not before 8.
fn scan_and_steam(heap: Global) -> Result<ClosedPlan, PlanRefusal> {
    let mut plan = OpenPlan::new(heap);
    plan.head(Head {
        places: 2,
        banks: 1,
        latency: 1,
        period: 20,
    })?;
    plan.task(0, 5, 0)?;
    plan.demand(0, 3)?;
    plan.task(1, 4, 8)?;
    plan.demand(0, 2)?;
    Ok(plan.close())
}

fn row(release: u32, response: u32) -> Dates {
    Dates { release, response }
}

// They meet, so each may wait for two accesses of the other: 5 + 3 + 2 and 4 + 2 + 2.
#[test]
fn meeting(rt: HostRuntime) -> Result<(), Fail> {
    let plan = scan_and_steam(rt.alloc())?;
    let ring = [Ring::new(2)];
    assert_eq!(rt; check(&plan, &ring, &[row(0, 10), row(8, 8)]), Ok(()));
    assert_eq!(rt;
        check(&plan, &ring, &[row(0, 10), row(8, 6)]),
        Err(Refusal::Short(1))
    );
    assert_eq!(rt;
        check(&plan, &ring, &[row(0, 10), row(7, 8)]),
        Err(Refusal::Early(1))
    );
    Ok(())
}

// Their windows only touch at 8, so neither waits for the other: 5 + 3 and 4 + 2.
#[test]
fn touching(rt: HostRuntime) -> Result<(), Fail> {
    let plan = scan_and_steam(rt.alloc())?;
    let ring = [Ring::new(2)];
    assert_eq!(rt; check(&plan, &ring, &[row(0, 8), row(8, 6)]), Ok(()));
    assert_eq!(rt;
        check(&plan, &ring, &[row(0, 8), row(8, 6), row(0, 0)]),
        Ok(())
    );
    assert_eq!(rt;
        check(&plan, &ring, &[row(0, 8), row(15, 6)]),
        Err(Refusal::Late(1))
    );
    Ok(())
}

// What is asked before any row: here every row would be refused too.
#[test]
fn asked_first(rt: HostRuntime) -> Result<(), Fail> {
    let plan = scan_and_steam(rt.alloc())?;
    let dates = [row(0, 0), row(0, 1_000_000_001)];
    let empty = OpenPlan::new(rt.alloc()).close();
    let none: [Ring; 0] = [];
    assert_eq!(rt; check(&empty, &none, &dates), Err(Refusal::NoTask));
    assert_eq!(rt; check(&plan, &none, &dates), Err(Refusal::Arbiters));
    assert_eq!(rt;
        check(&plan, &[Ring::new(1)], &dates),
        Err(Refusal::Arbiters)
    );
    assert_eq!(rt;
        check(&plan, &[Ring::new(2)], &dates[..1]),
        Err(Refusal::Table)
    );
    assert_eq!(rt; check(&plan, &[Ring::new(2)], &dates), Err(Refusal::Range));
    Ok(())
}
