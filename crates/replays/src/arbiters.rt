// The plan of a case, and its arbiters: new ones, one for each bank, by the make of the sheet's head.
use crate::case::Case;
use crate::replay::Replay;
use crate::steps::{Answer, Difference};
use arbiter::Arbiter;
use bostan::pile;
use loader::loading::load;
use plan::closed::ClosedPlan;
use plan::open::OpenPlan;
use rings::Ring;
use sheet::lines::Make;
use std::alloc::{AllocError, Global};

fn replay<A: Arbiter + Drop>(
    heap: Global,
    case: &Case,
    plan: &ClosedPlan,
    arbiters: Vec<A>,
) -> Option<Difference> {
    Replay::new(heap, plan, case.dates.as_slice(), arbiters).first_difference(case.steps.as_slice())
}

// A plan without a head has no arbiters. Rings and piles are two types, with an arm for each; the plan and the arbiters are made on the way down, so each call takes what there is so far.
fn replay_plan(
    heap: Global,
    case: &Case,
    plan: &ClosedPlan,
    make: Option<Make>,
) -> Result<Option<Difference>, AllocError> {
    match (plan.head(), make) {
        (Some(head), Some(Make::Ring)) => {
            let rings = (0..head.banks).map(|_| Ring::new(head.places));
            Ok(replay(heap, case, plan, rings.collect::<Vec<_>>(heap)?))
        }
        (Some(head), Some(Make::Bostan)) => {
            let piles = (0..head.banks).map(|_| pile());
            Ok(replay(heap, case, plan, piles.collect::<Vec<_>>(heap)?))
        }
        _ => Ok(replay(heap, case, plan, Vec::<Ring>::new(heap))),
    }
}

// The first line of a case at which the answer is not the expected one. A refused line of its sheet, which follows the line that begins the case, is one too.
pub(crate) fn first_difference(
    heap: Global,
    case: &Case,
) -> Result<Option<Difference>, AllocError> {
    let mut plan = OpenPlan::new(heap);
    match load(heap, &mut plan, case.sheet.as_slice()) {
        Ok(loaded) => replay_plan(heap, case, &plan.close(), loaded.make),
        Err(fault) => Ok(Some(Difference {
            line: case.line.saturating_add(fault.line),
            expected: Answer::Done(0),
            got: Answer::Done(u64::from(fault.number())),
        })),
    }
}
