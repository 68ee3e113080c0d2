// What stands in a field of a line.
ghost use Rattle.std.specs.Prelude.{◌≡◌, ◌==◌, ◌≤◌, true, length};
ghost use Rattle.std.specs.Int.{is_in_range};
ghost use Rattle.std.specs.List.{list_all, prefix_len};
ghost use Rattle.std.specs.Str.Parse.{digits_value};
ghost use Rattle.sheet.specs.Fields.{unpadded, numeral, number, visible, named};

fn leading_spaces(field: &[u8]) -> usize
    ensures value { result ≡ prefix_len (λ b. b == 32) field.now }
    ensures bound { result ≤ length field.now }
{
    field.iter().take_while(|b| **b == b' ').count()
}

// What follows the leading spaces.
pub(crate) fn unpadded(field: &[u8]) -> &[u8]
    ensures text { result.now ≡ unpadded field.now }
    ensures len { length result.now ≤ length field.now }
{
    &field[leading_spaces(field)..]
}

fn are_digits(bytes: &[u8]) -> bool
    ensures { result ≡ list_all (is_in_range 48 57) bytes.now }
{
    bytes.iter().all(|b| b.is_ascii_digit())
}

// Whether these are the digits of a number, without leading zeros.
fn is_numeral(digits: &[u8]) -> bool
    ensures { result ≡ numeral digits.now }
{
    match digits {
        [] | [b'0', _, ..] => false,
        _ => are_digits(digits),
    }
}

// The number that digits write. (`parse` takes a text, and would look at each byte twice more.)
fn value_of(digits: &[u8]) -> u64
    requires short { length digits.now ≤ 10 }
    requires digits { list_all (is_in_range 48 57) digits.now ≡ true }
    ensures { result ≡ digits_value 10 digits.now }
{
    // A loop: with `fold` two goals stayed open.
    let mut total = 0;
    for d in digits {
        total = 10 * total + u64::from(*d - b'0');
    }
    total
}

// The number in a field.
pub(crate) fn read_number(field: &[u8]) -> Option<u64>
    requires { length field.now ≤ 10 }
    ensures { result ≡ number field.now }
{
    let digits = unpadded(field);
    if !is_numeral(digits) {
        return None;
    }
    Some(value_of(digits))
}

fn are_visible(bytes: &[u8]) -> bool
    ensures { result ≡ visible bytes.now }
{
    bytes.iter().all(|b| b.is_ascii_graphic())
}

// Whether these bytes can be a name.
pub(crate) fn is_name(bytes: &[u8]) -> bool
    ensures { result ≡ named bytes.now }
{
    (1..=12).contains(&bytes.len()) && are_visible(bytes)
}
