// What texts name of signals.
ghost use Rattle.std.specs.Prelude.{◌≡◌, ◌≢◌, ℕ, ◌≤◌, List, length, drop, position, None, Some};
ghost use Rattle.std.specs.Option.{option_map};
ghost use Rattle.tre_define.specs.Named.{IsFront, base_of, part_named, part_in, falls, counted_bits, ranged, select_in, range_in, range_between, between_brackets, number_in, small_in, is_colon};
ghost use Rattle.tre_define.specs.declared.part.Part.{Part};

use crate::part::Part;
use tre_decimal::read_numeral;

/// The numbers of the leftmost and of the rightmost bit.
#[derive(Clone, Copy)]
pub(crate) struct Range {
    pub left: i32,
    pub right: i32,
}

/// The part that a text names of a signal with this name and size: all of it, where the text is
/// the name, with or without the range at its end; or one bit or several, where the text is the
/// name without that range and `[i]` or `[i:j]` behind it. Without a range the bits are numbered
/// from size - 1 down to 0.
pub(crate) fn part_named(text: &[u8], name: &[u8], size: u64) -> Option<Part>
    requires { 1 ≤ size }
    ensures { result ≡ part_named text.now name.now size }
{
    let whole = Part {
        low: 0,
        width: size,
    };
    if text == name {
        return Some(whole);
    }
    let (base, range) = split_range(name, size);
    let behind = text.strip_prefix(base)?;
    if behind.is_empty() {
        return Some(whole);
    }
    part_in(range, select_in(behind)?)
}

/// A name without the range at its end. It stands at the front of each text that names a part of a
/// signal of this name, before a bracket or alone, so that other texts needn't be compared.
pub fn base_of(name: &[u8]) -> &[u8]
    ensures base { result.now ≡ base_of name.now }
    ensures front { (text : List ℕ) (size : ℕ) (part : Part) →
        part_named text name.now size ≡ Some part → IsFront (base_of name.now) text }
{
    let place = range_place(name);
    match range_in(&name[place..]) {
        Some(_) => &name[..place],
        None => name,
    }
}

// A name without the range at its end, and that range; where there is none, that of its size.
fn split_range(name: &[u8], size: u64) -> (&[u8], Range)
    requires { 1 ≤ size }
    ensures { record { base = result.0.now; range = result.1 } ≡ ranged name.now size }
{
    let place = range_place(name);
    match range_in(&name[place..]) {
        Some(range) => (&name[..place], range),
        None => (name, counted(size)),
    }
}

// The only place at which a range may begin: that of the last `[` of a name that ends with `]`,
// since no number has a bracket; else the end.
fn range_place(name: &[u8]) -> usize
    ensures within { result ≤ length name.now }
    ensures only { (k : ℕ) → k ≢ result → range_in (drop k name.now) ≡ None }
{
    let len = name.len();
    if len == 0 || name[len - 1] != b']' {
        return len;
    }
    for place in (0..len).rev() {
        if name[place] == b'[' {
            return place;
        }
    }
    len
}

// The numbers of so many bits.
fn counted(size: u64) -> Range
    requires { 1 ≤ size }
    ensures { result ≡ counted_bits size }
{
    Range {
        left: (size.min(1 << 31) - 1) as i32,
        right: 0,
    }
}

// The part of the bits of a range that another range selects, in the same direction.
fn part_in(range: Range, select: Range) -> Option<Part>
    ensures { result ≡ part_in range select }
{
    if falls(range.left, select.left, select.right, range.right)
        || falls(range.right, select.right, select.left, range.left)
    {
        return Some(Part {
            low: u64::from(select.right.abs_diff(range.right)),
            width: u64::from(select.left.abs_diff(select.right)) + 1,
        });
    }
    None
}

// Whether the numbers don't rise.
fn falls(a: i32, b: i32, c: i32, d: i32) -> bool
    ensures { result ≡ falls a b c d }
{
    a >= b && b >= c && c >= d
}

// The numbers of `[i:j]` or `[i]`.
fn select_in(text: &[u8]) -> Option<Range>
    ensures { result ≡ select_in text.now }
{
    if let Some(range) = range_in(text) {
        return Some(range);
    }
    let number = number_in(between_brackets(text)?)?;
    Some(Range {
        left: number,
        right: number,
    })
}

// The numbers of `[i:j]`.
fn range_in(text: &[u8]) -> Option<Range>
    ensures { result ≡ range_in text.now }
{
    range_between(between_brackets(text)?)
}

fn range_between(numbers: &[u8]) -> Option<Range>
    ensures { result ≡ range_between numbers.now }
{
    let colon = first_colon(numbers)?;
    let left = number_in(&numbers[..colon])?;
    let right = number_in(&numbers[colon + 1..])?;
    Some(Range { left, right })
}

// What stands between `[` and `]`.
fn between_brackets(text: &[u8]) -> Option<&[u8]>
    ensures { option_map (λ inner. inner.now) result ≡ between_brackets text.now }
{
    match text {
        [b'[', inner @ .., b']'] => Some(inner),
        _ => None,
    }
}

fn first_colon(text: &[u8]) -> Option<usize>
    ensures { result ≡ position is_colon text.now }
{
    text.iter().position(|&byte| byte == b':')
}

// The number of a bit: digits, or `-` and digits, below 2^31.
fn number_in(bytes: &[u8]) -> Option<i32>
    ensures { result ≡ number_in bytes.now }
{
    match bytes {
        [b'-', digits @ ..] => Some(-(read_small(digits)? as i32)),
        _ => Some(read_small(bytes)? as i32),
    }
}

fn read_small(digits: &[u8]) -> Option<u32>
    ensures { result ≡ small_in digits.now }
{
    match read_numeral(digits) {
        Some(number) if number < 1 << 31 => Some(number as u32),
        _ => None,
    }
}
