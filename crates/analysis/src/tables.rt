// The working tables of the analysis. They are as large as the largest plan needs: `analyse` takes no memory, and has no refusal for want of it.
// Where a slice or a count goes with a column, a premise says that it is at most 256: its type does not.
ghost use Rattle.std.specs.Prelude.{◌≡◌, ℕ, ◌^◌, ◌<◌, length, slice_index};

// A number below 2^BITS for each row of a plan, which has at most 256.
#[derive(Clone, Copy)]
pub(crate) struct Column<const BITS: u32> {
    pub(crate) rows: [u64; 256],
    ghost full: { length rows ≡ 256 },
    ghost low: { (k : ℕ) → slice_index rows k < 2 ^ BITS },
}

// Dates and times that no sum of two takes past 64 bits.
pub(crate) type Releases = Column<44>;

pub(crate) type Responses = Column<35>;

// From when on each task may run, and for how long. Two columns, and no rows of pairs: each round renews one of them from the other.
#[derive(Clone, Copy)]
pub(crate) struct Windows {
    pub(crate) releases: Releases,
    pub(crate) responses: Responses,
}

// The tasks that one task meets, and the accesses of all of them, by bank and place.
#[derive(Drop)]
pub(crate) struct Meetings {
    pub(crate) met: [bool; 256],
    pub(crate) loads: [[u64; 32]; 16],
    ghost marks: { length met ≡ 256 },
    ghost banks: { length loads ≡ 16 },
}

// The dates that the rounds end with, and how many rounds there were.
#[derive(Drop)]
pub(crate) struct Found {
    pub(crate) rounds: u32,
    pub(crate) windows: Windows,
}
