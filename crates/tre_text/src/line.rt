// What one line of a text trace says.
ghost use Rattle.std.specs.Prelude.{◌≡◌, ◌-◌, ◌^◌, ◌≤◌, min, true, false, IfNone, IfSome};
ghost use Rattle.std.specs.List.{list_all};
ghost use Rattle.std.specs.Option.{option_map};
ghost use Rattle.tre_decimal.specs.Decimal.{units_of};
ghost use Rattle.tre_decimal.specs.declared.TheConstants.{SCALE_MAX};
ghost use Rattle.tre_text.specs.TextReading.{Past, begins_comment, begins_events, fields_among, spells_word, line_says};
ghost use Rattle.tre_text.specs.Lines.{LineFinds, Heads, bits_after, list_of, said_of, with_name};

use crate::field::{next_field, skip_blanks, without_return};
use crate::found::{Found, Head};
use crate::known::Known;
use crate::word::{behind_word, ends_word, word_end};
use tre_decimal::{begins_with_a_digit, read_units};
use tre_pairs::TIME_MAX;
use tre_parts::find_name;
use tre_state::Names;
use tre_trace::TraceKind;

// The bits, with that of this name set besides.
#[inline(always)]
pub fn with_name(names: &Names, bits: u64, field: &[u8]) -> u64
    ensures { result ≡ with_name names.now bits field.now }
{
    // For the proof: the call says that there are at most 64 names.
    let _ = names.len();
    if !names.may_hold(field) {
        return bits;
    }
    match find_name(names, field) {
        Some(place) => bits | (1 << place),
        None => bits,
    }
}

// The bits, with those of the fields set besides, where the fields are names.
#[inline(always)]
fn read_names(names: &Names, bits: u64, fields: &[u8]) -> Option<u64>
    ensures names { IfSome result (λ _. list_all spells_word (fields_among fields.now) ≡ true) }
    ensures value { IfSome result (λ valuation. valuation ≡ bits_after names.now bits
        (fields_among fields.now)) }
    ensures other { IfNone result (list_all spells_word (fields_among fields.now) ≡ false) }
{
    let mut rest = skip_blanks(fields);
    let mut valuation = bits;
    while !rest.is_empty() {
        let end = word_end(fields, rest);
        if !ends_word(rest, end) {
            return None;
        }
        let name = &rest[..end];
        // First of all, so that the end of the name need not be kept while it is looked for.
        rest = behind_word(rest, end);
        valuation = with_name(names, valuation, name);
    }
    Some(valuation)
}

// Whether a line of events begins with this field.
#[inline(always)]
fn is_events(first: &[u8]) -> bool
    ensures { result ≡ begins_events first.now }
{
    first == "@".as_bytes()
}

// The number of units that the field is. Most are one digit, and need no loop where a unit is a
// tick.
#[inline(always)]
pub fn length_of(field: &[u8], scale: u8) -> Option<u64>
    requires { scale ≤ SCALE_MAX }
    ensures { result ≡ option_map (λ units. min units (2 ^ 64 - 1)) (units_of scale field.now) }
{
    if scale == 0 && field.len() == 1 && field[0].is_ascii_digit() {
        return Some(u64::from(field[0] - b'0'));
    }
    read_units(field, scale)
}

// What the first field of a line says, where it is no comment.
#[inline(always)]
fn head_of(known: Known, first: &[u8], scale: u8) -> Result<Head, TraceKind>
    requires no_comment { begins_comment first.now ≡ false }
    requires scale { scale ≤ SCALE_MAX }
    ensures { Heads scale known.end first.now result }
{
    // For the proof: what is a number of units is no sign of events.
    begins_with_a_digit();
    let Some(len) = length_of(first, scale) else {
        return if is_events(first) {
            Ok(Head::Events)
        } else {
            Err(TraceKind::BadNumber)
        };
    };
    if len == 0 {
        return Err(TraceKind::Zero);
    }
    if known.end.saturating_add(len) > TIME_MAX {
        return Err(TraceKind::TooLate);
    }
    Ok(Head::Entry(len))
}

// The names that may stand on such a line.
#[inline(always)]
fn list_of<'a>(head: Head, names: &'a Names, events: &'a Names) -> &'a Names
    ensures { result.now ≡ list_of head names.now events.now }
{
    match head {
        Head::Events => events,
        Head::Entry(_) => names,
    }
}

// What was said before: events are said besides those, and a segment begins anew.
#[inline(always)]
fn said_of(head: Head, known: Known) -> u64
    ensures { result ≡ said_of head known }
{
    match head {
        Head::Events => known.pending,
        Head::Entry(_) => 0,
    }
}

/// What a line says behind what is known, for the propositions and the events of these names, where
/// its duration has this scale.
#[inline(always)]
pub fn read_line(names: &Names, events: &Names, scale: u8, known: Known, line: &[u8]) -> Found
    requires { scale ≤ SCALE_MAX }
    ensures { (past : Past) → past.end ≡ known.end →
        LineFinds (line_says scale past line.now) past
        (record { names = names.now; events = events.now }) known.pending result }
{
    let Some((first, fields)) = next_field(without_return(line)) else {
        return Found::Nothing;
    };
    if first[0] == b'#' {
        return Found::Nothing;
    }
    let head = match head_of(known, first, scale) {
        Ok(head) => head,
        Err(kind) => return Found::Wrong(kind),
    };
    // One call for both: then the search for a name is a part of this function.
    let Some(bits) = read_names(list_of(head, names, events), said_of(head, known), fields) else {
        return Found::Wrong(TraceKind::BadName);
    };
    match head {
        Head::Events => Found::Events(bits),
        Head::Entry(len) => Found::Entry(len, bits),
    }
}
