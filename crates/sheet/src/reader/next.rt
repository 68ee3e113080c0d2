// The next line of a sheet.
ghost use Rattle.std.specs.Prelude.{◌≡◌};
ghost use Rattle.sheet.specs.Laws.{Exact};
ghost use Rattle.sheet.specs.Place.{text, left, upcoming, remaining, Moved};
ghost use Rattle.sheet.specs.Reading.{continued, next_view};

use crate::cutting::first_line;
use crate::faults::Fault;
use crate::lines::Line;
use crate::parsing::parse;
use crate::reader::Sheet;

impl<'a> Sheet<'a> {
    // The next line; none at the end of the sheet. A fault leaves the sheet as it was: an Iterator would hand it out for ever.
    pub fn next(&mut self) -> Result<Option<Line<'a>>, Fault>
        ensures text { text self.new ≡ text self.old }
        ensures answer { next_view result ≡ upcoming self.old }
        ensures exact { Exact (left self.old) (next_view result) }
        ensures moved { Moved self.old result self.new }
        ensures reading { remaining self.old ≡ continued (next_view result) (remaining self.new) }
    {
        let Some(line) = first_line(&self.bytes[self.at..]) else {
            return Ok(None);
        };
        match parse(line) {
            Ok(row) => {
                self.at += line.len();
                self.lines += 1;
                Ok(Some(row))
            }
            Err(flaw) => Err(Fault {
                cause: flaw.cause,
                line: self.lines + 1,
                column: flaw.column,
            }),
        }
    }
}
