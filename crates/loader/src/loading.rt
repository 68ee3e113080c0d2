// Loads the lines of a sheet one after the other.
ghost use Rattle.std.specs.Prelude.{◌≡◌, OnOk};
ghost use Rattle.plan.specs.Plans.{opened};
ghost use Rattle.sheet.specs.Reading.{whole_reading};
ghost use Rattle.sheet.specs.Rows.{row_of};
ghost use Rattle.loader.specs.Faults.{row_fault};
ghost use Rattle.loader.specs.Loading.{Entered, Loads, Notes};

use crate::entering::enter;
use crate::faults::{LoadCause, LoadFault};
use crate::noting::Loaded;
use plan::open::OpenPlan;
use plan::rows::Refusal;
use sheet::lines::Line;
use sheet::reader::Sheet;
use std::alloc::Global;

// Takes the rows of a sheet into the plan. A refused sheet leaves the plan with exactly the rows before the refused line.
pub fn load<'a>(heap: Global, plan: &mut OpenPlan, bytes: &'a [u8]) -> Result<Loaded<'a>, LoadFault>
    ensures { Loads (opened plan.old) (whole_reading bytes.now) result (opened plan.new) }
{
    let mut sheet = Sheet::new(bytes);
    let mut loaded = Loaded::new(heap);
    while let Some(line) = sheet.next()? {
        let number = sheet.lines();
        take_line(plan, &mut loaded, line).map_err(|refusal| row_fault(number, refusal))?;
    }
    Ok(loaded)
}

// The name is noted first, since a name that finds no memory must leave the plan without the row.
fn take_line<'a>(
    plan: &mut OpenPlan,
    loaded: &mut Loaded<'a>,
    line: Line<'a>,
) -> Result<(), Refusal>
    ensures plan { Entered (opened plan.old) (row_of line.entry) result (opened plan.new) }
    ensures noted { OnOk result (Notes loaded.old (row_of line.entry) loaded.new) }
{
    loaded.note(line)?;
    enter(plan, line)
}

fn row_fault(line: usize, refusal: Refusal) -> LoadFault
    ensures { result ≡ row_fault line refusal }
{
    LoadFault {
        cause: LoadCause::Row(refusal),
        line,
        column: 1,
    }
}
