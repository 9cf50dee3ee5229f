// Whole numbers in fields and definitions.
ghost use Rattle.std.specs.Prelude.{◌≡◌, ◌-◌, ◌^◌, pos, neg_ℤ};
ghost use Rattle.std.specs.Option.{option_map};
ghost use Rattle.tre_num.specs.Whole.{number_up_to, whole_of};

use tre_decimal::read_numeral;

/// The whole number that the bytes write: digits, or `-` and digits. None where they are something
/// else, or the number isn't from -2^63 to 2^63 - 1.
pub fn read_whole(bytes: &[u8]) -> Option<i64>
    ensures { result ≡ whole_of bytes.now }
{
    match bytes {
        [b'-', digits @ ..] => read_negative(digits),
        _ => read_positive(bytes),
    }
}

// The number that digits write, up to 2^63 - 1.
fn read_positive(digits: &[u8]) -> Option<i64>
    ensures { result ≡ option_map pos (number_up_to (2 ^ 63 - 1) digits.now) }
{
    match read_numeral(digits) {
        Some(number) if number <= i64::MAX as u64 => Some(number as i64),
        _ => None,
    }
}

// The number that digits behind a minus write, down to -2^63.
fn read_negative(digits: &[u8]) -> Option<i64>
    ensures { result
        ≡ option_map (λ number. neg_ℤ (pos number)) (number_up_to (2 ^ 63) digits.now) }
{
    match read_numeral(digits) {
        Some(number) if number <= i64::MIN.unsigned_abs() => Some((-i128::from(number)) as i64),
        _ => None,
    }
}
