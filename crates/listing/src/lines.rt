// The lines of a listing, part by part.
ghost use Rattle.std.specs.Prelude.{◌≡◌};
ghost use Rattle.listing.specs.Listing.{row_line, rounds_line, late, fault};
ghost use Rattle.listing.specs.Parts.{text_of_all};

use crate::answer::Row;
use crate::parts::Part;

// The widths of a number, of a late finish and of a name.
const NUMBER: usize = 10;

const FINISH: usize = 16;

const NAME: usize = 12;

pub(crate) fn row_line<'n>(row: usize, r: &Row<'n>) -> [Part<'n>; 8]
    ensures { text_of_all result ≡ row_line row r.now }
{
    let release = u64::from(r.release);
    let response = u64::from(r.response);
    [
        Part::Byte(b'R'),
        Part::Number(NUMBER, row as u64),
        Part::Number(NUMBER, release),
        Part::Number(NUMBER, response),
        Part::Number(NUMBER, release + response),
        Part::Byte(b' '),
        Part::Text(NAME, r.name),
        Part::Byte(b'\n'),
    ]
}

pub(crate) fn rounds_line(rounds: u32) -> [Part<'static>; 3]
    ensures { text_of_all result ≡ rounds_line rounds }
{
    [
        Part::Byte(b'G'),
        Part::Number(NUMBER, u64::from(rounds)),
        Part::Byte(b'\n'),
    ]
}

pub(crate) fn late_line(row: usize, finish: u64) -> [Part<'static>; 4]
    ensures { text_of_all result ≡ late row finish }
{
    [
        Part::Byte(b'L'),
        Part::Number(NUMBER, row as u64),
        Part::Number(FINISH, finish),
        Part::Byte(b'\n'),
    ]
}

pub(crate) fn fault_line(number: u32, line: usize, column: usize) -> [Part<'static>; 5]
    ensures { text_of_all result ≡ fault number line column }
{
    [
        Part::Byte(b'F'),
        Part::Number(NUMBER, u64::from(number)),
        Part::Number(NUMBER, line as u64),
        Part::Number(NUMBER, column as u64),
        Part::Byte(b'\n'),
    ]
}
