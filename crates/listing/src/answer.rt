// What a listing tells of, and the refusal of memory that is too short for it.
ghost use Rattle.std.specs.Prelude.{◌≡◌};
ghost use Rattle.listing.specs.Memory.{short_memory};

// The dates granted to one task, with its name.
#[derive(Clone, Copy)]
pub struct Row<'n> {
    pub release: u32,
    pub response: u32,
    pub name: &'n [u8],
}

// Granted dates with the rounds that they took, a late row with its finish, or a fault with its line and column.
#[derive(Clone, Copy)]
pub enum Answer<'r, 'n> {
    Granted {
        rounds: u32,
        rows: &'r [Row<'n>],
    },
    Late {
        row: usize,
        finish: u64,
    },
    // The number is that of any crate's refusal; a listing prints it. With line and column it is no fault of the reader's, which has a cause.
    Fault {
        number: u32,
        line: usize,
        column: usize,
    },
}

// The memory is too short for the listing.
#[derive(Clone, Copy, PartialEq, Eq, Debug)]
pub struct Short;

impl Short {
    // The number of this refusal.
    pub fn number(&self) -> u32
        ensures { result ≡ short_memory }
    {
        11
    }
}
