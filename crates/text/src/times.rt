// Times, as they are written.
ghost use Rattle.std.specs.Prelude.{◌≡◌, true};
ghost use Rattle.std.specs.Char.{is_ascii_digit};
ghost use Rattle.text.specs.Times.{two, are_clock_digits, time, time_by_digits};

fn two_digits(tens: u8, ones: u8) -> u16
    requires tens { is_ascii_digit tens ≡ true }
    requires ones { is_ascii_digit ones ≡ true }
    ensures { result ≡ two tens ones }
{
    10 * (tens - b'0') as u16 + (ones - b'0') as u16
}

// Whether these are digits, the last two of them at most 59.
fn are_clock_digits(a: u8, b: u8, c: u8, d: u8) -> bool
    ensures { result ≡ are_clock_digits a b c d }
{
    a.is_ascii_digit() && b.is_ascii_digit() && matches!(c, b'0'..=b'5') && d.is_ascii_digit()
}

// The minute that is written so: two digits, a colon and two digits.
pub fn time_of(field: &[u8]) -> Option<u16>
    ensures value { result ≡ time field.now }
    ensures digits { result ≡ time_by_digits field.now }
{
    match field {
        [a, b, b':', c, d] if are_clock_digits(*a, *b, *c, *d) => {
            Some(60 * two_digits(*a, *b) + two_digits(*c, *d))
        }
        _ => None,
    }
}
