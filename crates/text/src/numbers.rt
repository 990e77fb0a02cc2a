// Numbers, as they are written.
ghost use Rattle.std.specs.Prelude.{◌≡◌, ◌+◌, ◌≤◌, ◌↔◌, ℕ, Some, decimal};
ghost use Rattle.text.specs.Numbers.{end_of_8_bits, number, number_by_digits, with_digit};

// What one digit more makes of a number, where that is no more than `most`.
fn with_digit(n: u16, byte: u8, most: u16) -> Option<u16>
    ensures { result ≡ with_digit (most + 1) n byte }
{
    if !byte.is_ascii_digit() {
        return None;
    }
    let next = 10 * n as u32 + (byte - b'0') as u32;
    if next > most as u32 {
        return None;
    }
    Some(next as u16)
}

// The number that is written so, with no zero ahead, where it is no more than `most`.
pub fn number_of(field: &[u8], most: u16) -> Option<u16>
    ensures value { result ≡ number (most + 1) field.now }
    ensures digits { result ≡ number_by_digits (most + 1) field.now }
{
    if let [] | [b'0', _, ..] = field {
        return None;
    }
    let mut n = 0;
    // as plain as a `try_fold`: the first byte that is no digit, or makes too much, ends it
    for byte in field {
        n = with_digit(n, *byte, most)?;
    }
    Some(n)
}

// The number that is written so, where 8 bits hold it.
pub fn small_number_of(field: &[u8]) -> Option<u8>
    ensures value { result ≡ number end_of_8_bits field.now }
    ensures digits { result ≡ number_by_digits end_of_8_bits field.now }
{
    let n = number_of(field, u8::MAX as u16)?;
    Some(n as u8)
}
