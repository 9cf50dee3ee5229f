// Numbers from bytes.
ghost use Rattle.std.specs.Prelude.{◌≡◌, ◌-◌, ◌+◌, ◌*◌, ◌^◌, ◌<◌, ◌≤◌, length, min, true, false, IfNone, IfSome};
ghost use Rattle.std.specs.Char.{is_ascii_digit};
ghost use Rattle.std.specs.List.{list_all, position_or_len};
ghost use Rattle.std.specs.Option.{option_map};
ghost use Rattle.std.specs.Str.Parse.{digits_value, digits_value_after};
ghost use Rattle.tre_decimal.specs.declared.TheConstants.{SCALE_MAX};
ghost use Rattle.tre_decimal.specs.Decimal.{is_numeral, is_point, is_zero, units_between, units_of};

/// The number that the digits write; past 2^64 - 1 it stays there. None where there is no digit, or
/// another byte.
pub fn read_numeral(digits: &[u8]) -> Option<u64>
    ensures digits { IfSome result (λ _. is_numeral digits.now ≡ true) }
    ensures value { IfSome result (λ number.
        number ≡ min (digits_value 10 digits.now) (2 ^ 64 - 1)) }
    ensures none { IfNone result (is_numeral digits.now ≡ false) }
{
    if digits.is_empty() {
        return None;
    }
    read_behind(0, digits)
}

/// The number of units that digits without a point write; past 2^64 - 1 it stays there. None where
/// there is no digit, or another byte.
pub fn read_digits(digits: &[u8], scale: u8) -> Option<u64>
    requires { scale ≤ SCALE_MAX }
    ensures digits { IfSome result (λ _. is_numeral digits.now ≡ true) }
    ensures value { IfSome result (λ units.
        units ≡ min (digits_value 10 digits.now * 10 ^ scale) (2 ^ 64 - 1)) }
    ensures none { IfNone result (is_numeral digits.now ≡ false) }
{
    match read_numeral(digits) {
        Some(number) => Some(times_power(number, scale)),
        None => None,
    }
}

/// The number of units that a decimal is: digits, or digits, a point and digits. Past 2^64 - 1 it
/// stays there. None where the text is something else, or where a digit past the scale isn't 0.
pub fn read_units(text: &[u8], scale: u8) -> Option<u64>
    requires { scale ≤ SCALE_MAX }
    ensures { result ≡ option_map (λ units. min units (2 ^ 64 - 1)) (units_of scale text.now) }
{
    match read_digits(text, scale) {
        Some(units) => Some(units),
        None => read_with_point(text, scale),
    }
}

// The same of a text that isn't digits alone; kept apart, since most numbers are.
#[inline(never)]
fn read_with_point(text: &[u8], scale: u8) -> Option<u64>
    requires digits { is_numeral text.now ≡ false }
    requires scale { scale ≤ SCALE_MAX }
    ensures { result ≡ option_map (λ units. min units (2 ^ 64 - 1)) (units_of scale text.now) }
{
    let place = first_point(text);
    if place == text.len() {
        return None;
    }
    read_between(&text[..place], &text[place + 1..], scale)
}

// The number of units that digits with these decimals behind them are.
fn read_between(whole: &[u8], decimals: &[u8], scale: u8) -> Option<u64>
    requires { scale ≤ SCALE_MAX }
    ensures { result ≡ option_map (λ units. min units (2 ^ 64 - 1))
        (units_between scale whole.now decimals.now) }
{
    let kept = usize::from(scale).min(decimals.len());
    if decimals.is_empty() || !are_zeros(&decimals[kept..]) {
        return None;
    }
    let number = read_behind(read_numeral(whole)?, &decimals[..kept])?;
    Some(times_power(number, scale - kept as u8))
}

// The number that digits write behind those of a number; past 2^64 - 1 it stays there. None where
// there is another byte.
fn read_behind(number: u64, digits: &[u8]) -> Option<u64>
    ensures digits { IfSome result (λ _. list_all is_ascii_digit digits.now ≡ true) }
    ensures value { IfSome result (λ longer.
        longer ≡ min (digits_value_after 10 number digits.now) (2 ^ 64 - 1)) }
    ensures none { IfNone result (list_all is_ascii_digit digits.now ≡ false) }
{
    let mut longer = number;
    for byte in digits {
        if !byte.is_ascii_digit() {
            return None;
        }
        longer = with_digit(longer, *byte - b'0');
    }
    Some(longer)
}

// The number with this digit behind it; past 2^64 - 1 it stays there. The common case by itself
// takes half the instructions.
fn with_digit(number: u64, digit: u8) -> u64
    requires { digit < 10 }
    ensures { result ≡ min (number * 10 + digit) (2 ^ 64 - 1) }
{
    if number < u64::MAX / 10 {
        return number * 10 + u64::from(digit);
    }
    number.saturating_mul(10).saturating_add(u64::from(digit))
}

// The number times so many tens; past 2^64 - 1 it stays there.
fn times_power(number: u64, exponent: u8) -> u64
    requires { exponent ≤ SCALE_MAX }
    ensures { result ≡ min (number * 10 ^ exponent) (2 ^ 64 - 1) }
{
    if exponent == 0 {
        return number;
    }
    number.saturating_mul(10u64.pow(u32::from(exponent)))
}

// The place of the first point; the length where there is none.
fn first_point(text: &[u8]) -> usize
    ensures place { result ≡ position_or_len is_point text.now }
    ensures within { result ≤ length text.now }
{
    text.iter().take_while(|&&byte| byte != b'.').count()
}

// Whether all these digits are 0.
fn are_zeros(digits: &[u8]) -> bool
    ensures { result ≡ list_all is_zero digits.now }
{
    digits.iter().all(|&digit| digit == b'0')
}
