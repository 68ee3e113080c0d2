// Reads one line: its letter, its length, its fields, its make.
ghost use Rattle.std.specs.Prelude.{◌≡◌, ◌+◌, ◌*◌, ◌≤◌, length, IfOk};
ghost use Rattle.sheet.specs.Lines.{number_at, name_at, head_line, task_line, demand_line, dependency_line, sized, parsed, line_view, bytes_view};

use crate::faults::{Cause, Flaw};
use crate::fields::{is_name, read_number, unpadded};
use crate::lines::{Line, Make};

// The k-th number, counted from 0.
fn read_field(line: &[u8], k: usize) -> Result<u64, Flaw>
    requires { 10 * k + 11 ≤ length line.now }
    ensures { result ≡ number_at line.now k }
{
    read_number(&line[10 * k + 1..][..10]).ok_or(Flaw {
        cause: Cause::IllFormedField,
        column: 10 * k + 2,
    })
}

// The name of a task line.
fn read_name(line: &[u8]) -> Result<&[u8], Flaw>
    requires { 44 ≤ length line.now }
    ensures { bytes_view result ≡ name_at line.now }
{
    let name = unpadded(&line[31..44]);
    if is_name(name) {
        Ok(name)
    } else {
        Err(Flaw {
            cause: Cause::IllFormedField,
            column: 32,
        })
    }
}

// The fields of a head, and then its make.
fn read_head(line: &[u8]) -> Result<Line<'_>, Flaw>
    requires { length line.now ≡ 52 }
    ensures { line_view result ≡ head_line line.now }
{
    let make = read_field(line, 0)?;
    let places = read_field(line, 1)?;
    let banks = read_field(line, 2)?;
    let latency = read_field(line, 3)?;
    let period = read_field(line, 4)?;
    let make = Make::try_from(make)?;
    Ok(Line::Head {
        make,
        places,
        banks,
        latency,
        period,
    })
}

// The fields of a task.
fn read_task(line: &[u8]) -> Result<Line<'_>, Flaw>
    requires { length line.now ≡ 45 }
    ensures { line_view result ≡ task_line line.now }
{
    let place = read_field(line, 0)?;
    let cycles = read_field(line, 1)?;
    let earliest = read_field(line, 2)?;
    let name = read_name(line)?;
    Ok(Line::Task {
        place,
        cycles,
        earliest,
        name,
    })
}

// The fields of a demand.
fn read_demand(line: &[u8]) -> Result<Line<'_>, Flaw>
    requires { length line.now ≡ 22 }
    ensures { line_view result ≡ demand_line line.now }
{
    let bank = read_field(line, 0)?;
    let count = read_field(line, 1)?;
    Ok(Line::Demand { bank, count })
}

// The field of a dependency.
fn read_dependency(line: &[u8]) -> Result<Line<'_>, Flaw>
    requires { length line.now ≡ 12 }
    ensures { line_view result ≡ dependency_line line.now }
{
    let row = read_field(line, 0)?;
    Ok(Line::Dependency { row })
}

// The line, if it has this many bytes and the last is a line feed.
fn sized(line: &[u8], size: usize) -> Result<&[u8], Flaw>
    ensures value { bytes_view result ≡ sized size line.now }
    ensures len { IfOk result (λ x. length x.now ≡ size) }
{
    if line.len() == size && line.ends_with(b"\n") {
        Ok(line)
    } else {
        Err(Cause::WrongLength.into())
    }
}

// What a line says, or what is wrong with it.
pub(crate) fn parse(line: &[u8]) -> Result<Line<'_>, Flaw>
    requires { 1 ≤ length line.now }
    ensures { line_view result ≡ parsed line.now }
{
    match line[0] {
        b'C' => read_head(sized(line, 52)?),
        b'T' => read_task(sized(line, 45)?),
        b'M' => read_demand(sized(line, 22)?),
        b'D' => read_dependency(sized(line, 12)?),
        _ => Err(Cause::UnknownLetter.into()),
    }
}
