// Replays files of cases through the libraries, and says where an answer is not the expected one.
#![tactic(auto)]

mod arbiters;
mod calls;
mod case;
mod lines;
mod reading;
mod replay;
mod steps;

use case::Case;
use lines::Line;
use std::fs;
use std::fs::Files;

// Is every answer of the case as expected? The first that is not is printed.
fn is_as_expected(
    rt: &(impl Print + AllocGlobal),
    name: &str,
    case: &Case,
) -> anyhow::Result<bool> {
    let Some(difference) = arbiters::first_difference(rt.alloc(), case)? else {
        return Ok(true);
    };
    println!(rt;
        "{name}: case {}, line {}: expected {:?}, got {:?}.",
        case.number, difference.line, difference.expected, difference.got
    )?;
    Ok(false)
}

fn replay_file(rt: &(impl Print + AllocGlobal + Files), name: &str) -> anyhow::Result<()> {
    let heap = rt.alloc();
    let bytes = fs::read(rt, name)?;
    let mut case = Case::new(heap, 0, 0);
    let mut cases = 0u64;
    let mut good = 0u64;
    for (i, text) in bytes.split_inclusive(|b| *b == b'\n').enumerate() {
        let line = Line {
            number: i + 1,
            text,
        };
        match line.letter() {
            b'X' => case = Case::new(heap, line.field(0)?, line.number),
            b'E' => {
                cases = cases.saturating_add(1);
                if is_as_expected(rt, name, &case)? {
                    good = good.saturating_add(1);
                }
            }
            _ => case.add(line)?,
        }
    }
    println!(rt; "{name}: {cases} cases, {good} as expected.")?;
    Ok(())
}

fn main(rt: HostRuntime) -> anyhow::Result<()> {
    for name in ["tables.txt", "runs.txt", "warm.txt"] {
        replay_file(&rt, name)?;
    }
    Ok(())
}
