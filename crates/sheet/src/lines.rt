// The lines of a sheet.
ghost use Rattle.sheet.specs.Rows.{GivesMake};

use crate::faults::Cause;

// Which arbiter a bank has: a ring over all places, or the Bostan pile.
#[derive(Clone, Copy, PartialEq, Eq, Debug)]
pub enum Make {
    Ring,
    Bostan,
}

// The make that has this number.
impl TryFrom<u64> for Make {
    type Error = Cause;

    ghost try_from_gives = { λ n r. GivesMake n r };

    fn try_from(n: u64) -> Result<Make, Cause> {
        match n {
            1 => Ok(Make::Ring),
            2 => Ok(Make::Bostan),
            _ => Err(Cause::UnknownMake),
        }
    }
}

// A line by what it is. A task's name stays part of the sheet.
#[derive(Clone, Copy, Debug)]
pub enum Line<'a> {
    Head {
        make: Make,
        places: u64,
        banks: u64,
        latency: u64,
        period: u64,
    },
    Task {
        place: u64,
        cycles: u64,
        earliest: u64,
        name: &'a [u8],
    },
    Demand {
        bank: u64,
        count: u64,
    },
    Dependency {
        row: u64,
    },
}
