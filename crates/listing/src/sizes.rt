// How many bytes a listing takes.
ghost use Rattle.std.specs.Prelude.{◌≡◌, ◌+◌, length, Some};
ghost use Rattle.listing.specs.Aligned.{Aligned, aligned_size};
ghost use Rattle.listing.specs.Listing.{row_lines, listing};
ghost use Rattle.listing.specs.Memory.{Measured};

use crate::answer::{Answer, Row};
use crate::lines::{fault_line, late_line, rounds_line, row_line};
use crate::parts::add_sizes;

// The size `first` of what stands before the rows, with that of their lines.
fn add_rows(first: usize, rows: &[Row]) -> Option<usize>
    ensures { Measured result (first + length (row_lines 0 rows.now)) }
{
    // A loop: with `try_fold` the goal stayed open.
    let mut size = first;
    for (row, r) in rows.iter().enumerate() {
        size = add_sizes(size, &row_line(row, r))?;
    }
    Some(size)
}

// How many bytes the listing of the answer takes, or none where a usize cannot hold that many.
pub fn size(answer: &Answer) -> Option<usize>
    ensures defined { Measured result (length (listing answer.now)) }
    ensures aligned { Aligned answer.now → result ≡ Some (aligned_size answer.now) }
{
    match answer {
        Answer::Granted { rounds, rows } => {
            let first = add_sizes(0, &rounds_line(*rounds))?;
            add_rows(first, rows)
        }
        Answer::Late { row, finish } => add_sizes(0, &late_line(*row, *finish)),
        Answer::Fault {
            number,
            line,
            column,
        } => add_sizes(0, &fault_line(*number, *line, *column)),
    }
}
