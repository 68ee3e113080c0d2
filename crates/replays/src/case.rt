// A case: the lines of a sheet, a table of dates, and steps.
use crate::lines::Line;
use crate::reading::{read_dates, read_step};
use crate::steps::Step;
use date_check::Dates;
use std::alloc::Global;

// Its number, and the line that begins it.
#[derive(Drop)]
pub(crate) struct Case {
    pub(crate) number: u64,
    pub(crate) line: usize,
    pub(crate) sheet: Vec<u8>,
    pub(crate) dates: Vec<Dates>,
    pub(crate) steps: Vec<Step>,
}

impl Case {
    pub(crate) fn new(heap: Global, number: u64, line: usize) -> Case {
        Case {
            number,
            line,
            sheet: Vec::new(heap),
            dates: Vec::new(heap),
            steps: Vec::new(heap),
        }
    }

    // Adds what one more line says.
    pub(crate) fn add(&mut self, line: Line) -> anyhow::Result<()> {
        match line.letter() {
            b'C' | b'T' | b'M' | b'D' => self.sheet.extend_from_slice(line.text)?,
            b'A' => self.dates.push(read_dates(line)?)?,
            _ => self.steps.push(read_step(line)?)?,
        }
        Ok(())
    }
}
