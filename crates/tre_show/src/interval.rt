// The text of an interval.
ghost use Rattle.std.specs.Prelude.{◌≡◌, ◌≤◌, ◌++◌, Some, codes, string_bytes, OnOk};
ghost use Rattle.std.specs.Prelude.{if◌then◌else◌};
ghost use Rattle.tre_decimal.specs.declared.TheConstants.{SCALE_MAX};
ghost use Rattle.tre_zone.specs.Interval.{IsInterval};
ghost use Rattle.tre_show.specs.Interval.{lower_text, upper_text, interval_text};

use std::alloc::AllocError;
use tre_decimal::push_units;
use tre_parse::sign;
use tre_zone::Interval;

fn push_lower(text: &mut String, low: u64, weak: bool, scale: u8) -> Result<(), AllocError>
    requires { scale ≤ SCALE_MAX }
    ensures { OnOk result (string_bytes text.new
        ≡ string_bytes text.old ++ lower_text scale low weak) }
{
    text.push_str(opening(weak))?;
    push_units(text, low, scale)?;
    text.push_str(sign::COMMA)
}

/// The text of an interval.
pub(crate) fn push_interval(
    text: &mut String,
    interval: &Interval,
    scale: u8,
) -> Result<(), AllocError>
    requires { scale ≤ SCALE_MAX }
    ensures text { OnOk result (string_bytes text.new
        ≡ string_bytes text.old ++ interval_text scale interval.now) }
    ensures interval { OnOk result (IsInterval interval.now) }
{
    push_lower(text, interval.low(), interval.low_weak(), scale)?;
    push_upper(text, interval.high(), interval.high_weak(), scale)
}

fn push_upper(text: &mut String, high: Option<u64>, weak: bool, scale: u8) -> Result<(), AllocError>
    requires { scale ≤ SCALE_MAX }
    ensures { OnOk result (string_bytes text.new
        ≡ string_bytes text.old ++ upper_text scale high weak) }
{
    match high {
        None => push_infinite(text),
        Some(high) => push_high(text, high, weak, scale),
    }
}

fn push_infinite(text: &mut String) -> Result<(), AllocError>
    ensures { OnOk result (string_bytes text.new ≡ string_bytes text.old ++ codes "inf)") }
{
    text.push_str("inf")?;
    text.push_str(sign::RIGHT_PAREN)
}

fn push_high(text: &mut String, high: u64, weak: bool, scale: u8) -> Result<(), AllocError>
    requires { scale ≤ SCALE_MAX }
    ensures { OnOk result (string_bytes text.new
        ≡ string_bytes text.old ++ upper_text scale (Some high) weak) }
{
    push_units(text, high, scale)?;
    text.push_str(closing(weak))
}

fn opening(weak: bool) -> &'static str
    ensures { result.now ≡ (if weak then codes "[" else codes "(") }
{
    if weak {
        sign::LEFT_BRACKET
    } else {
        sign::LEFT_PAREN
    }
}

fn closing(weak: bool) -> &'static str
    ensures { result.now ≡ (if weak then codes "]" else codes ")") }
{
    if weak {
        sign::RIGHT_BRACKET
    } else {
        sign::RIGHT_PAREN
    }
}
