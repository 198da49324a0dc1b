// Numbers in decimal, as deployments and scripts have them.
ghost use Rattle.std.specs.Prelude.{◌≡◌, ◌<◌, ◌≤◌, ◌^◌, ◌*◌, ◌+◌, ℕ, SomeIff};
ghost use Rattle.beldi_value.specs.Number.{number_at, numeral_at, negated as negated_of, int_at};

/// The number that the digits are, where there are only digits, one at least, and it is at most `most`.
/// Leading zeros count for nothing.
pub fn read_number(bytes: &[u8], most: u64) -> Option<u64>
    ensures { result ≡ number_at most bytes.now }
{
    if bytes.is_empty() {
        return None;
    }
    let mut number = 0u64;
    for byte in bytes {
        if !byte.is_ascii_digit() {
            return None;
        }
        let digit = u64::from(*byte - b'0');
        number = appended(number, digit)?;
        if number > most {
            return None;
        }
    }
    Some(number)
}

// A digit after a number, where this fits.
fn appended(number: u64, digit: u64) -> Option<u64>
    ensures { SomeIff result (number * 10 + digit < 2 ^ 64) (number * 10 + digit) }
{
    number.checked_mul(10)?.checked_add(digit)
}

/// The same where no zero stands in front of other digits.
pub fn read_numeral(bytes: &[u8], most: u64) -> Option<u64>
    ensures { result ≡ numeral_at most bytes.now }
{
    match bytes {
        [b'0', _, ..] => None,
        _ => read_number(bytes, most),
    }
}

/// The whole number of 64 bits whose canonical text this is.
pub fn read_int(bytes: &[u8]) -> Option<i64>
    ensures { result ≡ int_at bytes.now }
{
    match bytes {
        [b'-', digits @ ..] => match read_numeral(digits, 1 << 63) {
            Some(number) => negated(number),
            None => None,
        },
        _ => match read_numeral(bytes, i64::MAX as u64) {
            Some(number) => Some(number as i64),
            None => None,
        },
    }
}

fn negated(number: u64) -> Option<i64>
    requires { number ≤ 2 ^ 63 }
    ensures { result ≡ negated_of number }
{
    if number == 0 {
        None
    } else {
        Some(-((number - 1) as i64) - 1)
    }
}
