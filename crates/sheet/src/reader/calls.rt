// A sheet before its first line, and how many lines were read.
ghost use Rattle.std.specs.Prelude.{◌≡◌};
ghost use Rattle.sheet.specs.Place.{text, left, count, remaining};
ghost use Rattle.sheet.specs.Reading.{whole_reading};

use crate::reader::Sheet;

impl<'a> Sheet<'a> {
    // A sheet of which nothing has been read.
    pub fn new(bytes: &'a [u8]) -> Sheet<'a>
        ensures text { text result ≡ bytes.now }
        ensures left { left result ≡ bytes.now }
        ensures count { count result ≡ 0 }
        ensures reading { remaining result ≡ whole_reading bytes.now }
    {
        Sheet {
            bytes,
            at: 0,
            lines: 0,
        }
    }

    // How many lines have been read.
    pub fn lines(&self) -> usize
        ensures { result ≡ count self.now }
    {
        self.lines
    }
}
