// A file of cases. A case is a line X with its number, a line I with a length and a sheet of that length,
// a line O with a length and the expected listing, and a line E. Numbers stand in 10 columns, as in a sheet.
ghost use Rattle.std.specs.Prelude.{◌≡◌, ◌+◌, ◌-◌, ◌<◌, length, OnOk};
ghost use Rattle.std.specs.Iterator.{at_most};

use anyhow::{Context, ensure};

// The bytes that are left to read.
#[derive(Drop)]
pub(crate) struct Cases<'a> {
    bytes: &'a [u8],
}

// A sheet and the listing that it should have.
#[derive(Clone, Copy)]
pub(crate) struct Case<'a> {
    pub(crate) number: usize,
    pub(crate) sheet: &'a [u8],
    pub(crate) expected: &'a [u8],
}

impl<'a> Cases<'a> {
    pub(crate) fn new(bytes: &'a [u8]) -> Cases<'a> {
        Cases { bytes }
    }

    // The next bytes, as many as that.
    fn take(&mut self, count: usize) -> anyhow::Result<&'a [u8]>
        ensures { OnOk result (length self.old.bytes.now ≡ count + length self.new.bytes.now) }
    {
        let (first, rest) = self
            .bytes
            .split_at_checked(count)
            .context("the file of cases ends too early")?;
        self.bytes = rest;
        Ok(first)
    }

    // The number of a line that has this letter, taken off the bytes; a line of `replays` is cut already, and has more fields.
    fn number(&mut self, letter: u8) -> anyhow::Result<usize>
        ensures { OnOk result (length self.old.bytes.now ≡ 12 + length self.new.bytes.now) }
    {
        let line = self.take(12)?;
        ensure!(
            line.first() == Some(&letter),
            "a line of the file of cases has another letter"
        );
        let field = line
            .get(1..11)
            .context("a line of the file of cases is too short")?;
        Ok(std::str::from_utf8(field)?.trim_start().parse::<usize>()?)
    }

    // A case takes bytes, so that the cases come to an end.
    fn case(&mut self) -> anyhow::Result<Case<'a>>
        ensures { OnOk result (length self.new.bytes.now < length self.old.bytes.now) }
    {
        let number = self.number(b'X')?;
        let length = self.number(b'I')?;
        let sheet = self.take(length)?;
        let length = self.number(b'O')?;
        let expected = self.take(length)?;
        ensure!(
            self.take(2)? == b"E\n".as_slice(),
            "a case of the file of cases does not end"
        );
        Ok(Case {
            number,
            sheet,
            expected,
        })
    }
}

impl<'a> Iterator for Cases<'a> {
    type Item = anyhow::Result<Case<'a>>;

    ghost remaining = { λ s. at_most (length s.bytes.now) };

    // Nothing comes after a case that cannot be read.
    fn next(&mut self) -> Option<anyhow::Result<Case<'a>>> {
        if self.bytes.is_empty() {
            return None;
        }
        let case = self.case();
        if case.is_err() {
            self.bytes = b"".as_slice();
        }
        Some(case)
    }
}
