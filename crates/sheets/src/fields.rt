// The fields of a line, taken for numbers and pins.
ghost use Rattle.std.specs.Prelude.{◌≡◌, ◌<◌, ◌≤◌, length};
ghost use Rattle.spelling.specs.Fields.{read_on, number_of, pin_of};

use parish::Lot;

// The number that digits write after those that write `first`; None where one of them is no digit.
fn digits_after(first: u32, rest: &[u8]) -> Option<u32>
    requires first { first < 10 }
    requires short { length rest.now ≤ 6 }
    ensures { result ≡ read_on first rest.now }
{
    let mut number = first;
    for digit in rest {
        if !digit.is_ascii_digit() {
            return None;
        }
        number = number * 10 + u32::from(*digit - b'0');
    }
    Some(number)
}

// A number field: the lone 0, or a first digit 1 to 9 and at most six more. Taken apart by its bytes, since `parse` takes a sign
// and leading zeros too.
pub(crate) fn number(field: &[u8]) -> Option<u32>
    ensures { result ≡ number_of field.now }
{
    match field {
        [b'0'] => Some(0),
        [first @ b'1'..=b'9', rest @ ..] if rest.len() <= 6 => digits_after(
            u32::from(*first - b'0'),
            rest,
        ),
        _ => None,
    }
}

// A pin field: `A`, `B`, or `-` for no pin.
pub(crate) fn pin(field: &[u8]) -> Option<Option<Lot>>
    ensures { result ≡ pin_of field.now }
{
    match field {
        [b'A'] => Some(Some(Lot::A)),
        [b'B'] => Some(Some(Lot::B)),
        [b'-'] => Some(None),
        _ => None,
    }
}
