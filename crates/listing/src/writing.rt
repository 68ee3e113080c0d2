// A listing written into memory.
ghost use Rattle.std.specs.Prelude.{◌≤◌, length};
ghost use Rattle.listing.specs.Listing.{row_lines, granted, listing};
ghost use Rattle.listing.specs.Memory.{Listed, AtFront};

use crate::answer::{Answer, Row, Short};
use crate::lines::{fault_line, late_line, rounds_line, row_line};
use crate::parts::put;
use crate::sizes::size;

fn put_rows(out: &mut [u8], rows: &[Row]) -> usize
    requires { length (row_lines 0 rows.now) ≤ length out.old }
    ensures { AtFront (row_lines 0 rows.now) out.old result out.new }
{
    let mut end = 0;
    for (row, r) in rows.iter().enumerate() {
        end += put(&mut out[end..], &row_line(row, r));
    }
    end
}

fn put_granted(out: &mut [u8], rounds: u32, rows: &[Row]) -> usize
    requires { length (granted rounds rows.now) ≤ length out.old }
    ensures { AtFront (granted rounds rows.now) out.old result out.new }
{
    let end = put(out, &rounds_line(rounds));
    end + put_rows(&mut out[end..], rows)
}

// Writes the listing of the answer at the front of the memory and answers its length. Memory that is too short is refused, and stays as it was.
pub fn list(out: &mut [u8], answer: &Answer) -> Result<usize, Short>
    ensures { Listed (listing answer.now) out.old result out.new }
{
    let n = size(answer).ok_or(Short)?;
    if out.len() < n {
        return Err(Short);
    }
    match answer {
        Answer::Granted { rounds, rows } => Ok(put_granted(out, *rounds, rows)),
        Answer::Late { row, finish } => Ok(put(out, &late_line(*row, *finish))),
        Answer::Fault {
            number,
            line,
            column,
        } => Ok(put(out, &fault_line(*number, *line, *column))),
    }
}
