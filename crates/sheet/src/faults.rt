// What is wrong with a sheet.
ghost use Rattle.std.specs.Prelude.{◌≡◌};
ghost use Rattle.sheet.specs.Lines.{flaw};
ghost use Rattle.sheet.specs.Refusals.{refusal};

// The question that a line fails.
#[derive(Clone, Copy, PartialEq, Eq, Debug)]
pub enum Cause {
    UnknownLetter,
    WrongLength,
    IllFormedField,
    UnknownMake,
}

impl Cause {
    // The number of the question.
    pub fn number(self) -> u32
        ensures { result ≡ refusal self }
    {
        match self {
            Cause::UnknownLetter => 1,
            Cause::WrongLength => 2,
            Cause::IllFormedField => 3,
            Cause::UnknownMake => 5,
        }
    }
}

// A cause with its column, from 1.
#[derive(Clone, Copy)]
pub(crate) struct Flaw {
    pub(crate) cause: Cause,
    pub(crate) column: usize,
}

// A fault of a whole line stands in its first column.
impl From<Cause> for Flaw {
    ghost from_gives = { λ cause r. r ≡ flaw cause 1 };

    fn from(cause: Cause) -> Flaw {
        Flaw { cause, column: 1 }
    }
}

// A cause with its line and column, both from 1.
#[derive(Clone, Copy, PartialEq, Eq, Debug)]
pub struct Fault {
    pub cause: Cause,
    pub line: usize,
    pub column: usize,
}

impl Fault {
    // The refusal's number: 1, 2, 3 or 5.
    pub fn number(&self) -> u32
        ensures { result ≡ refusal self.now.cause }
    {
        self.cause.number()
    }
}
