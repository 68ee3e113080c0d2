// Dates are granted, or a row is late.
ghost use Rattle.std.specs.Prelude.{ℕ, ◌^◌, ◌<◌, ◌≤◌, length, MatchOption};
ghost use Rattle.analysis.specs.Workings.{Decided, Filled, LowestLate, finish_in};

use crate::refusal::Refusal;
use crate::tables::{Found, Windows};
use date_check::Dates;

impl Windows {
    // The lowest of the first rows that ends after the period.
    fn first_late(&self, rows: usize, period: u64) -> Option<usize>
        requires { rows ≤ 256 }
        ensures { MatchOption result ((i : ℕ) → i < rows → finish_in self.now i ≤ period) (LowestLate rows period (finish_in self.now)) }
    {
        (0..rows).find(|&row| period < self.finish(row))
    }

    // Writes the dates of the rows of a table, which end within 32 bits.
    fn write(&self, dates: &mut [Dates])
        requires few { length dates.old ≤ 256 }
        requires low { (i : ℕ) → i < length dates.old → finish_in self.now i < 2 ^ 32 }
        ensures { Filled self.now dates.new }
    {
        for (i, row) in dates.iter_mut().enumerate() {
            *row = Dates {
                release: self.releases.rows[i] as u32,
                response: self.responses.rows[i] as u32,
            };
        }
    }
}

impl Found {
    // Writes the dates into a table with one row for each task, if all of them end within the period; otherwise the lowest late row is refused, and nothing is written.
    pub(crate) fn grant(&self, period: u64, dates: &mut [Dates]) -> Result<u32, Refusal>
        requires few { length dates.old ≤ 256 }
        requires short { period ≤ 1000000000 }
        ensures { Decided period self.now dates.old dates.new result }
    {
        if let Some(row) = self.windows.first_late(dates.len(), period) {
            return Err(Refusal::Late {
                row,
                finish: self.windows.finish(row),
            });
        }
        self.windows.write(dates);
        Ok(self.rounds)
    }
}
