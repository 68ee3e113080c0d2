// What is wrong with a sheet that is loaded: a line that cannot be read, or a row that the plan refuses.
ghost use Rattle.std.specs.Prelude.{◌≡◌};
ghost use Rattle.loader.specs.Faults.{number_of, read_fault};

use plan::rows::Refusal;
use sheet::faults::{Cause, Fault};

// The refused line's own fault, or the row's own refusal, whole.
#[derive(Clone, Copy, PartialEq, Eq, Debug)]
pub enum LoadCause {
    Line(Cause),
    Row(Refusal),
}

// A cause with its line and column, both from 1. No generic fault: a trait of causes, for `number`, would serve these two alone.
#[derive(Clone, Copy, PartialEq, Eq, Debug)]
pub struct LoadFault {
    pub cause: LoadCause,
    pub line: usize,
    pub column: usize,
}

impl LoadFault {
    // The number of the refusal: the reader's or the plan's.
    pub fn number(&self) -> u32
        ensures { result ≡ number_of self.now.cause }
    {
        match self.cause {
            LoadCause::Line(cause) => cause.number(),
            LoadCause::Row(refusal) => refusal.number(),
        }
    }
}

impl From<Fault> for LoadFault {
    ghost from_gives = { λ e r. r ≡ read_fault e };

    fn from(e: Fault) -> LoadFault {
        LoadFault {
            cause: LoadCause::Line(e.cause),
            line: e.line,
            column: e.column,
        }
    }
}
