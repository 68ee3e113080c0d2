// A broken date, and whose it is.
ghost use Rattle.std.specs.Prelude.{◌≡◌};
ghost use Rattle.cluster.specs.Breaches.{kind_of, row_of};

#[derive(Clone, Copy, PartialEq, Eq, Debug)]
pub enum Breach {
    // This row was at work at its finish date.
    Overdue(usize),
    // The date of this row came before its place was idle and all that it waits for were done.
    Unready(usize),
}

impl Breach {
    // The number by which the rules know the kind.
    pub fn kind(self) -> u32
        ensures { result ≡ kind_of self }
    {
        match self {
            Breach::Overdue(_) => 1,
            Breach::Unready(_) => 2,
        }
    }

    pub fn row(self) -> usize
        ensures { result ≡ row_of self }
    {
        match self {
            Breach::Overdue(row) | Breach::Unready(row) => row,
        }
    }
}
