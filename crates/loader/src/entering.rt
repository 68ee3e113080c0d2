// Hands a line's row to the plan.
ghost use Rattle.plan.specs.Plans.{opened};
ghost use Rattle.sheet.specs.Rows.{row_of};
ghost use Rattle.loader.specs.Loading.{Entered};

use plan::open::OpenPlan;
use plan::rows::{Head, Refusal};
use sheet::lines::Line;

pub(crate) fn enter(plan: &mut OpenPlan, line: Line<'_>) -> Result<(), Refusal>
    ensures { Entered (opened plan.old) (row_of line.entry) result (opened plan.new) }
{
    match line {
        Line::Head {
            places,
            banks,
            latency,
            period,
            ..
        } => plan.head(Head {
            places: places as usize,
            banks: banks as usize,
            latency,
            period,
        }),
        Line::Task {
            place,
            cycles,
            earliest,
            ..
        } => {
            plan.task(place as usize, cycles, earliest)?;
            Ok(())
        }
        Line::Demand { bank, count } => plan.demand(bank as usize, count),
        Line::Dependency { row } => plan.after(row as usize),
    }
}
