// Why the check refuses dates.
ghost use Rattle.std.specs.Prelude.{◌≡◌, Some};
ghost use Rattle.date_check.specs.Verdict.{number_of, refusal_text, row_of};

use std::error::Error;
use std::fmt;

#[derive(Clone, Copy, PartialEq, Eq, Debug)]
pub enum Refusal {
    // The plan has no task.
    NoTask,
    // There is not one arbiter per bank, or one is narrower than the places.
    Arbiters,
    // The table has fewer rows than there are tasks.
    Table,
    // A release or a response is above 1,000,000,000.
    Range,
    // This row is released before its earliest date, or before a finish that it waits for.
    Early(usize),
    // The response of this row does not cover what its task takes at worst.
    Short(usize),
    // This row finishes after the period.
    Late(usize),
}

impl Refusal {
    // The number by which the rules know the refusal.
    pub fn number(self) -> u32
        ensures { result ≡ number_of self }
    {
        match self {
            Refusal::NoTask => 9,
            Refusal::Arbiters => 10,
            Refusal::Table => 11,
            Refusal::Range => 5,
            Refusal::Early(_) => 13,
            Refusal::Short(_) => 14,
            Refusal::Late(_) => 12,
        }
    }

    // The row that the refusal names.
    pub fn row(self) -> Option<usize>
        ensures { result ≡ row_of self }
    {
        match self {
            Refusal::Early(row) | Refusal::Short(row) | Refusal::Late(row) => Some(row),
            Refusal::NoTask | Refusal::Arbiters | Refusal::Table | Refusal::Range => None,
        }
    }
}

// The number, and the row where the refusal names one: "9", "14 at row 3".
impl fmt::Display for Refusal {
    ghost output = { λ refusal. Some (refusal_text refusal) };

    fn fmt<W: fmt::Write>(&self, f: &mut fmt::Formatter<W>) -> fmt::Result {
        match self.row() {
            Some(row) => write!(f, "{} at row {row}", self.number()),
            None => write!(f, "{}", self.number()),
        }
    }
}

impl Error for Refusal {}
