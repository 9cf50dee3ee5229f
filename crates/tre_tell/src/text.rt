// The texts that are told, each written from its end to its front: the line of a time, and in front
// of it the lines of zones, those of each pattern behind its label.
ghost use Rattle.std.specs.Prelude.{◌≡◌, ◌≤◌, ◌<◌, ◌++◌, drop, length, map, string_bytes, IfOk};
ghost use Rattle.tre_decimal.specs.declared.TheConstants.{SCALE_MAX};
ghost use Rattle.tre_online.specs.Watch.{ended_of_each};
ghost use Rattle.tre_show.specs.Line.{line_of};
ghost use Rattle.tre_tell.specs.Blocks.{lines_with};
ghost use Rattle.tre_zoneset.specs.ZoneSet.{IsZoneSet};
ghost use Rattle.tre_tell.specs.Printed.{IsPrinted, IsSetPut, IsToldPut, IsTextOf, time_line};

use std::alloc::{AllocError, Global};
use tre_online::Watch;
use tre_show::{LINE_MAX, are_rising, in_printed_order, write_line, write_time, write_word};
use tre_zone::Zone;

fn zeros(alloc: Global, count: usize) -> Result<Vec<u8>, AllocError>
    ensures { IfOk result (λ bytes. length bytes.items ≡ count) }
{
    vec![in alloc; 0u8; count]
}

// Each of these keeps what stands in the text from `begin` on, and says where that, with what it
// puts in front of it, begins then.

// Makes room for so many bytes in front.
#[inline(always)]
fn make_room(text: &mut Vec<u8>, begin: usize, count: usize) -> Result<usize, AllocError>
    requires { begin ≤ length text.old.items }
    ensures same { IfOk result (λ at. drop at text.new.items ≡ drop begin text.old.items) }
    ensures within { IfOk result (λ at. at ≤ length text.new.items) }
    ensures room { IfOk result (λ at. count ≤ at) }
{
    if count <= begin {
        return Ok(begin);
    }
    grow(text, begin, count)
}

fn grow(text: &mut Vec<u8>, begin: usize, count: usize) -> Result<usize, AllocError>
    requires { begin ≤ length text.old.items }
    ensures same { IfOk result (λ at. drop at text.new.items ≡ drop begin text.old.items) }
    ensures within { IfOk result (λ at. at ≤ length text.new.items) }
    ensures room { IfOk result (λ at. count ≤ at) }
{
    let front = count.saturating_add(text.len());
    let mut longer = zeros(*text.allocator(), front)?;
    longer.extend_from_slice(&text[begin..])?;
    *text = longer;
    Ok(front)
}

// Puts the line of the zone, behind the label.
fn put_line(
    label: &str,
    zone: &Zone,
    scale: u8,
    text: &mut Vec<u8>,
    begin: usize,
) -> Result<usize, AllocError>
    requires scale { scale ≤ SCALE_MAX }
    requires within { begin ≤ length text.old.items }
    ensures line { IfOk result (λ at. drop at text.new.items
        ≡ (label.now ++ line_of scale zone.now) ++ drop begin text.old.items) }
    ensures within { IfOk result (λ at. at ≤ length text.new.items) }
{
    let end = make_room(text, begin, label.len().saturating_add(LINE_MAX))?;
    let end = write_line(zone, scale, text, end);
    Ok(write_word(label.as_bytes(), text, end))
}

// Puts the lines of the zones, each behind the label.
fn put_lines(
    label: &str,
    zones: &[Zone],
    scale: u8,
    text: &mut Vec<u8>,
    begin: usize,
) -> Result<usize, AllocError>
    requires scale { scale ≤ SCALE_MAX }
    requires within { begin ≤ length text.old.items }
    ensures lines { IfOk result (λ at. drop at text.new.items
        ≡ lines_with scale label.now zones.now ++ drop begin text.old.items) }
    ensures within { IfOk result (λ at. at ≤ length text.new.items) }
{
    let mut at = begin;
    let mut left = zones.len();
    while left > 0 {
        left -= 1;
        at = put_line(label, &zones[left], scale, text, at)?;
    }
    Ok(at)
}

// A copy of the zones of a set, in the order in which they are printed.
fn printed(alloc: Global, set: &[Zone]) -> Result<Vec<Zone>, AllocError>
    requires { IsZoneSet set.now }
    ensures { IfOk result (λ zones. IsPrinted set.now zones.items) }
{
    let zones = set.to_vec(alloc)?;
    Ok(in_printed_order(zones))
}

// Puts the lines of the zones of a set, each behind the label, in the order of printing.
fn put_set(
    label: &str,
    set: &[Zone],
    scale: u8,
    text: &mut Vec<u8>,
    begin: usize,
) -> Result<usize, AllocError>
    requires set { IsZoneSet set.now }
    requires scale { scale ≤ SCALE_MAX }
    requires within { begin ≤ length text.old.items }
    ensures put { IfOk result (λ at. IsSetPut scale label.now set.now
        (drop begin text.old.items) (drop at text.new.items)) }
    ensures within { IfOk result (λ at. at ≤ length text.new.items) }
{
    if are_rising(set) {
        return put_lines(label, set, scale, text, begin);
    }
    let zones = printed(*text.allocator(), set)?;
    put_lines(label, &zones, scale, text, begin)
}

// Puts the lines of what the watch told last of the pattern at the place, behind the label.
fn put_told_at(
    label: &str,
    watch: &Watch,
    place: usize,
    scale: u8,
    text: &mut Vec<u8>,
    begin: usize,
) -> Result<usize, AllocError>
    requires some { place < length (ended_of_each watch.now) }
    requires scale { scale ≤ SCALE_MAX }
    requires within { begin ≤ length text.old.items }
    ensures put { IfOk result (λ at. IsToldPut scale label.now (ended_of_each watch.now) place
        (drop begin text.old.items) (drop at text.new.items)) }
    ensures within { IfOk result (λ at. at ≤ length text.new.items) }
{
    match watch.told(place) {
        Some(set) => put_set(label, set, scale, text, begin),
        None => unreachable!(),
    }
}

// Puts the lines of what the watch told last of each pattern, behind the label at its place.
fn put_told(
    labels: &[String],
    watch: &Watch,
    scale: u8,
    text: &mut Vec<u8>,
    begin: usize,
) -> Result<usize, AllocError>
    requires count { length (ended_of_each watch.now) ≡ length labels.now }
    requires scale { scale ≤ SCALE_MAX }
    requires within { begin ≤ length text.old.items }
    ensures put { IfOk result (λ at. IsTextOf scale (map string_bytes labels.now)
        (ended_of_each watch.now) (drop begin text.old.items) (drop at text.new.items)) }
    ensures within { IfOk result (λ at. at ≤ length text.new.items) }
{
    let mut at = begin;
    let mut left = labels.len();
    while left > 0 {
        left -= 1;
        at = put_told_at(labels[left].as_str(), watch, left, scale, text, at)?;
    }
    Ok(at)
}

// Makes the line of a time behind a word, as the end of the text, in place of what was there.
fn start_text(word: &str, time: u64, scale: u8, text: &mut Vec<u8>) -> Result<usize, AllocError>
    requires scale { scale ≤ SCALE_MAX }
    ensures line { IfOk result (λ at. drop at text.new.items ≡ time_line scale word.now time) }
    ensures within { IfOk result (λ at. at ≤ length text.new.items) }
{
    let end = make_room(text, text.len(), word.len().saturating_add(LINE_MAX))?;
    Ok(write_time(word, time, scale, text, end))
}

/// Makes the text of what the watch told last of each pattern, behind its label, and of a time
/// behind a word, in place of the text that was there. Says where it begins.
pub fn write_told(
    labels: &[String],
    watch: &Watch,
    word: &str,
    time: u64,
    scale: u8,
    text: &mut Vec<u8>,
) -> Result<usize, AllocError>
    requires count { length (ended_of_each watch.now) ≡ length labels.now }
    requires scale { scale ≤ SCALE_MAX }
    ensures text { IfOk result (λ begin. IsTextOf scale (map string_bytes labels.now)
        (ended_of_each watch.now) (time_line scale word.now time) (drop begin text.new.items)) }
    ensures within { IfOk result (λ begin. begin ≤ length text.new.items) }
{
    let end = start_text(word, time, scale, text)?;
    put_told(labels, watch, scale, text, end)
}
