// The line of a zone, written from its end to its front into a buffer, and put at once.
ghost use Rattle.std.specs.Prelude.{◌≡◌, ◌==◌, ◌+◌, ◌≤◌, ◌++◌, ◌∷◌, [], codes, drop, length, nat_abs, string_bytes, IsAscii, IsUtf8, OnOk, OnErr};
ghost use Rattle.std.specs.Prelude.{if◌then◌else◌};
ghost use Rattle.tre_decimal.specs.declared.TheConstants.{SCALE_MAX};
ghost use Rattle.tre_decimal.specs.Decimal.{last_digits, number_text};
ghost use Rattle.tre_zone.specs.Bound.{value_of, weakness_of};
ghost use Rattle.tre_show.specs.Interval.{interval_text};
ghost use Rattle.tre_zone.specs.Ranges.{range_of};
ghost use Rattle.tre_show.specs.Line.{line_of};

use itoa::write_digits;
use std::alloc::AllocError;
use tre_zone::{Bound, Zone};

/// How many bytes a line has at the most, with numbers of up to 20 digits, a point and 9 decimals.
pub const LINE_MAX: usize = 192;

/// Appends the line of the zone: its begins, its ends and its durations, each as an interval.
pub fn zone_line(zone: &Zone, scale: u8, out: &mut String) -> Result<(), AllocError>
    requires { scale ≤ SCALE_MAX }
    ensures line { OnOk result
        (string_bytes out.new ≡ string_bytes out.old ++ line_of scale zone.now) }
    ensures err { OnErr result (string_bytes out.new ≡ string_bytes out.old) }
{
    let mut buffer = [0; LINE_MAX];
    push_line(zone, scale, &mut buffer, out)
}

/// `zone_line`, by a buffer that many lines may use.
pub(crate) fn push_line(
    zone: &Zone,
    scale: u8,
    buffer: &mut [u8; LINE_MAX],
    out: &mut String,
) -> Result<(), AllocError>
    requires { scale ≤ SCALE_MAX }
    ensures line { OnOk result
        (string_bytes out.new ≡ string_bytes out.old ++ line_of scale zone.now) }
    ensures err { OnErr result (string_bytes out.new ≡ string_bytes out.old) }
{
    let begin = write_one_line(zone, scale, buffer);
    out.push_str(text_of(&buffer[begin..]))
}

// The text that the bytes are. Nothing looks at them again: that they are one is proved.
pub(crate) fn text_of(bytes: &[u8]) -> &str
    requires { IsUtf8 bytes.now }
    ensures { result.now ≡ bytes.now }
{
    unsafe { str::from_utf8_unchecked(bytes) }
}

// Writes the line of the zone, so that it ends where the buffer does. Says where it begins.
fn write_one_line(zone: &Zone, scale: u8, buffer: &mut [u8]) -> usize
    requires scale { scale ≤ SCALE_MAX }
    requires room { length buffer.old ≡ LINE_MAX }
    ensures line { drop result buffer.new ≡ line_of scale zone.now }
    ensures begin { result ≤ LINE_MAX }
    ensures text { IsUtf8 (line_of scale zone.now) }
{
    write_line(zone, scale, buffer, LINE_MAX)
}

/// Writes the line of the zone, so that it ends at `end`. Says where it begins.
#[inline(always)]
pub fn write_line(zone: &Zone, scale: u8, buffer: &mut [u8], end: usize) -> usize
    requires scale { scale ≤ SCALE_MAX }
    requires room { (LINE_MAX ≤ end) × (end ≤ length buffer.old) }
    ensures line { drop result buffer.new ≡ line_of scale zone.now ++ drop end buffer.old }
    ensures begin { (end ≤ result + LINE_MAX) × (result ≤ end) }
    ensures text { IsUtf8 (line_of scale zone.now) }
{
    let bounds = zone.bounds();
    let end = write_sign(b'\n', buffer, end);
    let end = write_between(&bounds.dur_low, &bounds.dur_high, scale, buffer, end);
    let end = write_sign(b' ', buffer, end);
    let end = write_between(&bounds.end_low, &bounds.end_high, scale, buffer, end);
    let end = write_sign(b' ', buffer, end);
    write_between(&bounds.begin_low, &bounds.begin_high, scale, buffer, end)
}

// Each of these writes a text so that it ends at `end`, and says where it begins.

fn write_between(low: &Bound, high: &Bound, scale: u8, buffer: &mut [u8], end: usize) -> usize
    requires scale { scale ≤ SCALE_MAX }
    requires room { (63 ≤ end) × (end ≤ length buffer.old) }
    ensures text { drop result buffer.new
        ≡ interval_text scale (range_of low.now high.now) ++ drop end buffer.old }
    ensures ascii { IsAscii (interval_text scale (range_of low.now high.now)) }
    ensures begin { (end ≤ result + 63) × (result ≤ end) }
{
    let end = write_sign(closing(is_weak(high)), buffer, end);
    let end = write_number(magnitude(high), scale, buffer, end);
    let end = write_sign(b',', buffer, end);
    let end = write_number(magnitude(low), scale, buffer, end);
    write_sign(opening(is_weak(low)), buffer, end)
}

pub(crate) fn write_number(units: u64, scale: u8, buffer: &mut [u8], end: usize) -> usize
    requires scale { scale ≤ SCALE_MAX }
    requires room { (30 ≤ end) × (end ≤ length buffer.old) }
    ensures text { drop result buffer.new ≡ number_text scale units ++ drop end buffer.old }
    ensures ascii { IsAscii (number_text scale units) }
    ensures begin { (end ≤ result + 30) × (result ≤ end) }
{
    if scale == 0 {
        return write_digits(units, buffer, end);
    }
    let end = write_last(units, scale, buffer, end);
    let end = write_sign(b'.', buffer, end);
    write_digits(units / 10u64.pow(u32::from(scale)), buffer, end)
}

// The last digits of a number, so many of them.
fn write_last(number: u64, count: u8, buffer: &mut [u8], end: usize) -> usize
    requires { (count ≤ end) × (end ≤ length buffer.old) }
    ensures text { drop result buffer.new ≡ last_digits count number ++ drop end buffer.old }
    ensures begin { result + count ≡ end }
{
    if count == 0 {
        return end;
    }
    let begin = write_sign(b'0' + (number % 10) as u8, buffer, end);
    write_last(number / 10, count - 1, buffer, begin)
}

#[inline(always)]
pub(crate) fn write_sign(sign: u8, buffer: &mut [u8], end: usize) -> usize
    requires { (1 ≤ end) × (end ≤ length buffer.old) }
    ensures text { drop result buffer.new ≡ sign ∷ drop end buffer.old }
    ensures begin { result + 1 ≡ end }
{
    buffer[end - 1] = sign;
    end - 1
}

#[inline(always)]
fn opening(weak: bool) -> u8
    ensures { result ∷ [] ≡ (if weak then codes "[" else codes "(") }
{
    if weak { b'[' } else { b'(' }
}

#[inline(always)]
fn closing(weak: bool) -> u8
    ensures { result ∷ [] ≡ (if weak then codes "]" else codes ")") }
{
    if weak { b']' } else { b')' }
}

// How far the bound's number is from 0.
#[inline(always)]
fn magnitude(bound: &Bound) -> u64
    ensures { result ≡ nat_abs (value_of bound.now) }
{
    bound.value().unsigned_abs()
}

#[inline(always)]
fn is_weak(bound: &Bound) -> bool
    ensures { result ≡ (weakness_of bound.now == 1) }
{
    bound.is_weak()
}
