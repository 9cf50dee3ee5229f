// The times of a dump.
ghost use Rattle.std.specs.Prelude.{◌≡◌, ◌*◌, ◌+◌, ◌-◌, ◌^◌, ◌≤◌, min, true, false, Option, None, Some, if◌then◌else◌, IfNone, IfSome};
ghost use Rattle.std.specs.List.{list_all};
ghost use Rattle.std.specs.Option.{option_map};
ghost use Rattle.std.specs.Str.Parse.{digits_value};
ghost use Rattle.tre_decimal.specs.declared.TheConstants.{SCALE_MAX};
ghost use Rattle.tre_decimal.specs.Decimal.{is_numeral, is_zero};
ghost use Rattle.tre_pairs.specs.declared.TheConstants.{TIME_MAX};
ghost use Rattle.tre_trace.specs.declared.fault.TraceKind.TheVariants.{BadToken, TooFine};
ghost use Rattle.tre_vcd.specs.Kept.{shifted_digits, tick_kept};
ghost use Rattle.tre_vcd.specs.Timescale.{shifted, units_by};

use crate::past::Past;
use tre_decimal::{read_digits, read_numeral};
use tre_trace::TraceKind;
use tre_unit::TimeUnit;

// A unit of time is 10^-exponent of this unit, and where there is none of a tick of the dump.
#[derive(Drop)]
pub struct Scale {
    pub exponent: u8,
    pub unit: Option<TimeUnit>,
    ghost small: { exponent ≤ SCALE_MAX },
}

impl Scale {
    pub fn new(exponent: u8, unit: Option<TimeUnit>) -> Scale
        requires { exponent ≤ SCALE_MAX }
        ensures exponent { result.exponent ≡ exponent }
        ensures unit { result.unit ≡ unit }
    {
        Scale { exponent, unit }
    }

    // The time in units that so many ticks are, where it is one of a trace, and else a later one.
    #[inline(always)]
    pub fn time_or_late(&self, past: &Past, ticks: &[u8]) -> u64
        ensures digits { result ≤ TIME_MAX → is_numeral ticks.now ≡ true }
        ensures value { result ≤ TIME_MAX → option_map (λ exact. min exact (2 ^ 64 - 1))
            (units_by self.now.exponent self.now.unit (tick_kept past.now)
            (digits_value 10 ticks.now)) ≡ Some result }
    {
        match &self.unit {
            None => match read_digits(ticks, self.exponent) {
                Some(units) => units,
                None => u64::MAX,
            },
            Some(_) => match self.time(past, ticks) {
                Some(units) => units,
                None => u64::MAX,
            },
        }
    }

    // The time in units that so many ticks are; past 2^64 - 1 it stays there. None where there is
    // no digit, or another byte, and where it is no whole number of units.
    #[inline(never)]
    pub fn time(&self, past: &Past, ticks: &[u8]) -> Option<u64>
        ensures digits { IfSome result (λ _. is_numeral ticks.now ≡ true) }
        ensures value { IfSome result (λ units. option_map (λ exact. min exact (2 ^ 64 - 1))
            (units_by self.now.exponent self.now.unit (tick_kept past.now)
            (digits_value 10 ticks.now)) ≡ Some units) }
        ensures none { IfNone result (is_numeral ticks.now ≡ true → units_by self.now.exponent
            self.now.unit (tick_kept past.now) (digits_value 10 ticks.now) ≡ None) }
    {
        match &self.unit {
            None => read_digits(ticks, self.exponent),
            Some(unit) => self.time_in(*unit, past, ticks),
        }
    }

    // The same in this unit.
    fn time_in(&self, unit: TimeUnit, past: &Past, ticks: &[u8]) -> Option<u64>
        ensures digits { IfSome result (λ _. is_numeral ticks.now ≡ true) }
        ensures value { IfSome result (λ units. option_map (λ exact. min exact (2 ^ 64 - 1))
            (units_by self.now.exponent (Some unit) (tick_kept past.now)
            (digits_value 10 ticks.now)) ≡ Some units) }
        ensures none { IfNone result (is_numeral ticks.now ≡ true → units_by self.now.exponent
            (Some unit) (tick_kept past.now) (digits_value 10 ticks.now) ≡ None) }
    {
        let tick = past.tick()?;
        let more = u32::from(unit.places()) + u32::from(self.exponent) + u32::from(tick.tens);
        shift(ticks, more, u32::from(tick.unit.places()))
    }
}

// What is wrong with a time that was refused: it is no number, or no whole number of units.
pub fn time_fault(ticks: &[u8]) -> TraceKind
    ensures { result ≡ (if is_numeral ticks.now then TooFine else BadToken) }
{
    match read_numeral(ticks) {
        Some(_) => TraceKind::TooFine,
        None => TraceKind::BadToken,
    }
}

// The number of these digits times 10^more * 10^-less, where it is a whole one; past 2^64 - 1 it
// stays there. None where they are no digits.
fn shift(digits: &[u8], more: u32, less: u32) -> Option<u64>
    ensures { result ≡ shifted_digits more less digits.now }
{
    if more < less {
        return quotient(digits, (less - more) as usize);
    }
    match read_numeral(digits) {
        Some(number) => Some(times_power(number, more - less)),
        None => None,
    }
}

// The number times so many tens; past 2^64 - 1 it stays there.
fn times_power(number: u64, exponent: u32) -> u64
    ensures { result ≡ min (number * min (10 ^ exponent) (2 ^ 64 - 1)) (2 ^ 64 - 1) }
{
    if exponent == 0 {
        return number;
    }
    number.saturating_mul(10u64.saturating_pow(exponent))
}

// The number of these digits, of which so many at the end must be zeros that are left out.
fn quotient(digits: &[u8], zeros: usize) -> Option<u64>
    ensures { result ≡ shifted_digits 0 zeros digits.now }
{
    let front = digits.len().saturating_sub(zeros);
    if digits.is_empty() || !are_zeros(&digits[front..]) {
        return None;
    }
    if front == 0 {
        return Some(0);
    }
    read_numeral(&digits[..front])
}

// Whether all these digits are 0.
fn are_zeros(digits: &[u8]) -> bool
    ensures { result ≡ list_all is_zero digits.now }
{
    digits.iter().all(|&digit| digit == b'0')
}
