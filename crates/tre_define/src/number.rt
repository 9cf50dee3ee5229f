// The numbers that comparisons of signals are with.
ghost use Rattle.std.specs.Prelude.{◌≡◌, ◌≤◌};
ghost use Rattle.tre_define.specs.Signals.{based, number_in};

/// The number of decimal digits, or of digits of another base behind `0x` or `0b`, below 2^64.
pub(crate) fn number_in(text: &[u8]) -> Option<u64>
    ensures { result ≡ number_in text.now }
{
    match text {
        [b'0', b'x', digits @ ..] => read_based(16, digits),
        [b'0', b'b', digits @ ..] => read_based(2, digits),
        _ => read_based(10, text),
    }
}

fn read_based(base: u32, digits: &[u8]) -> Option<u64>
    requires { (2 ≤ base) × (base ≤ 16) }
    ensures { result ≡ based base digits.now }
{
    if digits.is_empty() {
        return None;
    }
    let mut number: u64 = 0;
    for &byte in digits {
        let digit = char::from(byte).to_digit(base)?;
        number = number
            .checked_mul(u64::from(base))?
            .checked_add(u64::from(digit))?;
    }
    Some(number)
}
