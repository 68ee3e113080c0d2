// The rows of a listing.
ghost use Rattle.std.specs.Prelude.{◌≡◌, map, zip, IfOk};
ghost use Rattle.answering.specs.Rows.{named_row};

use crate::memory::OutOfMemory;
use date_check::Dates;
use listing::Row;
use std::alloc::Global;

// Each task's dates with its name.
pub(crate) fn named_rows<'n>(
    heap: Global,
    dates: &[Dates],
    names: &[&'n [u8]],
) -> Result<Vec<Row<'n>>, OutOfMemory>
    ensures { IfOk result (λ v. v.items ≡ map named_row (zip dates.now names.now)) }
{
    let rows = dates
        .iter()
        .zip(names)
        .map(|(date, name)| Row {
            release: date.release,
            response: date.response,
            name,
        })
        .collect(heap)?;
    Ok(rows)
}
