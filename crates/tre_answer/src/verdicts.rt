// The text of what becomes of checks, written by pieces.
ghost use Rattle.std.specs.Prelude.{◌≡◌, ◌≤◌, [], ◌<◌, ◌+◌, ◌-◌, ◌*◌, ◌++◌, ℕ, List, codes, drop, flat_map, get_or, length, map, string_bytes, IfOk};
ghost use Rattle.std.specs.List.{slice_range};
ghost use Rattle.std.specs.Option.{MatchOption};
ghost use Rattle.tre_answer.specs.Findings.{finding_text, findings_text, verdict_line};
ghost use Rattle.tre_answer.specs.Listed.{listed_zones};
ghost use Rattle.tre_answer.specs.Printing.{EndsPutting, HasRoom, finding_of};
ghost use Rattle.tre_decimal.specs.Decimal.{number_text};
ghost use Rattle.tre_decimal.specs.declared.TheConstants.{SCALE_MAX};
ghost use Rattle.tre_show.specs.Line.{line_of};
ghost use Rattle.tre_tell.specs.Blocks.{lines_with};
ghost use Rattle.tre_tell.specs.Outputs.{output_told};
ghost use Rattle.tre_zone.specs.declared.zone_bounds.ZoneBounds.{ZoneBounds};

use crate::checks::Checked;
use crate::listed::Listed;
use crate::printing::PIECE;
use std::alloc::{AllocError, Global};
use tre_feed::{Fault, write_bytes};
use tre_io::Sink;
use tre_judge::Verdict;
use tre_show::{LINE_MAX, Zones, write_line, write_time, write_word};

/// Room in which the pieces of the text are made: for each name and two lines at least.
pub fn verdict_room(alloc: Global, checks: &[Checked]) -> Result<Vec<u8>, AllocError>
    ensures room { IfOk result (λ room. (place : ℕ) (other : Checked) → place < length checks.now →
        HasRoom (length room.items) (string_bytes (get_or checks.now place other).name)) }
    ensures least { IfOk result (λ room. PIECE ≤ length room.items) }
{
    let mut most = PIECE;
    for checked in checks {
        let Some(needed) = checked.name.len().checked_add(2 * LINE_MAX) else {
            return Err(AllocError);
        };
        most = most.max(needed);
    }
    vec![in alloc; 0u8; most]
}

// What stands before the name in the line of a verdict.
fn word_of(verdict: Verdict) -> Option<&'static str>
    ensures { (name : List ℕ) → MatchOption result (verdict_line verdict name ≡ [])
        (λ word. (verdict_line verdict name ≡ word.now ++ (name ++ codes "\n"))
        × (length word.now ≤ 8)) }
{
    match verdict {
        Verdict::Unjudged => None,
        Verdict::Passed => Some("pass "),
        Verdict::Failed => Some("fail "),
        Verdict::Waiting => Some("open "),
        Verdict::Vacuous => Some("vacuous "),
    }
}

// Writes a line of a word and a name, so that it ends where the buffer does. Says where it begins.
fn write_title(word: &str, name: &str, buffer: &mut [u8]) -> usize
    requires room { HasRoom (length buffer.old) name.now }
    requires word { length word.now ≤ 8 }
    ensures line { drop result buffer.new ≡ word.now ++ (name.now ++ codes "\n") }
    ensures begin { result ≤ length buffer.new }
{
    let end = write_word(b"\n", buffer, buffer.len());
    let end = write_word(name.as_bytes(), buffer, end);
    write_word(word.as_bytes(), buffer, end)
}

// Writes the line of the verdict, if it has one.
fn put_verdict<O: Sink>(
    verdict: Verdict,
    name: &str,
    buffer: &mut [u8],
    out: &mut O,
) -> Result<(), Fault>
    requires { HasRoom (length buffer.old) name.now }
    ensures { EndsPutting (verdict_line verdict name.now)
        (output_told (O.told out.old) (O.told out.new)) result }
{
    match word_of(verdict) {
        None => Ok(()),
        Some(word) => {
            let begin = write_title(word, name, buffer);
            write_bytes(&buffer[begin..], out)
        }
    }
}

// Writes the lines of zones from one place to another, each behind the name, so that the last of
// them ends where the buffer does. Says where the first begins.
fn write_named(
    name: &str,
    zones: &Listed,
    from: usize,
    to: usize,
    scale: u8,
    buffer: &mut [u8],
) -> usize
    requires scale { scale ≤ SCALE_MAX }
    requires places { (from ≤ to) × (to ≤ length (listed_zones zones.now)) }
    requires room { (to - from) * (length name.now + 193) ≤ length buffer.old }
    ensures lines { drop result buffer.new ≡ lines_with scale (name.now ++ codes " ")
        (slice_range (listed_zones zones.now) from to) }
    ensures begin { result ≤ length buffer.new }
{
    let mut begin = buffer.len();
    let mut left = to;
    while left > from {
        left -= 1;
        begin = write_named_line(name, zones, left, scale, buffer, begin);
    }
    begin
}

// Writes the line of the zone at the place behind the name, so that it ends at `end`.
fn write_named_line(
    name: &str,
    zones: &Listed,
    place: usize,
    scale: u8,
    buffer: &mut [u8],
    end: usize,
) -> usize
    requires scale { scale ≤ SCALE_MAX }
    requires place { place < length (listed_zones zones.now) }
    requires room { (length name.now + 193 ≤ end) × (end ≤ length buffer.old) }
    ensures line { (zone : ZoneBounds) → drop result buffer.new
        ≡ ((name.now ++ codes " ") ++ line_of scale (get_or (listed_zones zones.now) place zone))
        ++ drop end buffer.old }
    ensures begin { (end ≤ result + (length name.now + 193)) × (result ≤ end) }
{
    let end = write_line(&zones.zone(place), scale, buffer, end);
    let end = write_word(b" ", buffer, end);
    write_word(name.as_bytes(), buffer, end)
}

// Writes them at once.
fn put_named<O: Sink>(
    name: &str,
    zones: &Listed,
    from: usize,
    to: usize,
    scale: u8,
    buffer: &mut [u8],
    out: &mut O,
) -> Result<(), Fault>
    requires scale { scale ≤ SCALE_MAX }
    requires places { (from ≤ to) × (to ≤ length (listed_zones zones.now)) }
    requires room { (to - from) * (length name.now + 193) ≤ length buffer.old }
    ensures { EndsPutting (lines_with scale (name.now ++ codes " ")
        (slice_range (listed_zones zones.now) from to))
        (output_told (O.told out.old) (O.told out.new)) result }
{
    let begin = write_named(name, zones, from, to, scale, buffer);
    write_bytes(&buffer[begin..], out)
}

// Writes the lines of all zones behind the name, as many at once as there is room for.
fn put_zones<O: Sink>(
    name: &str,
    zones: &Listed,
    scale: u8,
    buffer: &mut [u8],
    out: &mut O,
) -> Result<(), Fault>
    requires scale { scale ≤ SCALE_MAX }
    requires room { HasRoom (length buffer.old) name.now }
    ensures { EndsPutting (lines_with scale (name.now ++ codes " ") (listed_zones zones.now))
        (output_told (O.told out.old) (O.told out.new)) result }
{
    let count = zones.count();
    let lines = buffer.len() / (name.len() + (LINE_MAX + 1));
    let mut from = 0;
    while from < count {
        let to = from + lines.min(count - from);
        put_named(name, zones, from, to, scale, buffer, out)?;
        from = to;
    }
    Ok(())
}

// Writes the lines of a check.
fn put_check<O: Sink>(
    checked: &Checked,
    scale: u8,
    buffer: &mut [u8],
    out: &mut O,
) -> Result<(), Fault>
    requires scale { scale ≤ SCALE_MAX }
    requires room { HasRoom (length buffer.old) (string_bytes checked.now.name) }
    ensures { EndsPutting (finding_text scale (finding_of checked.now))
        (output_told (O.told out.old) (O.told out.new)) result }
{
    let name = checked.name.as_str();
    put_verdict(checked.verdict, name, buffer, out)?;
    put_zones(name, &checked.zones, scale, buffer, out)
}

// Writes the lines of all checks.
fn put_checks<O: Sink>(
    checks: &[Checked],
    scale: u8,
    buffer: &mut [u8],
    out: &mut O,
) -> Result<(), Fault>
    requires scale { scale ≤ SCALE_MAX }
    requires room { (place : ℕ) (other : Checked) → place < length checks.now →
        HasRoom (length buffer.old) (string_bytes (get_or checks.now place other).name) }
    ensures { EndsPutting (flat_map (finding_text scale) (map finding_of checks.now))
        (output_told (O.told out.old) (O.told out.new)) result }
{
    for place in 0..checks.len() {
        put_check(&checks[place], scale, buffer, out)?;
    }
    Ok(())
}

// Writes the line of the end.
fn put_end<O: Sink>(end: u64, scale: u8, buffer: &mut [u8], out: &mut O) -> Result<(), Fault>
    requires scale { scale ≤ SCALE_MAX }
    requires room { PIECE ≤ length buffer.old }
    ensures { EndsPutting (codes "end " ++ number_text scale end ++ codes "\n")
        (output_told (O.told out.old) (O.told out.new)) result }
{
    let begin = write_time("end ", end, scale, buffer, buffer.len());
    write_bytes(&buffer[begin..], out)
}

/// Writes what becomes of the checks, and then the end of the recording. Each piece of the text is
/// made in the buffer: once something was written, no memory can be wanting.
pub fn write_verdicts<O: Sink>(
    checks: &[Checked],
    end: u64,
    scale: u8,
    buffer: &mut [u8],
    out: &mut O,
) -> Result<(), Fault>
    requires scale { scale ≤ SCALE_MAX }
    requires room { (place : ℕ) (other : Checked) → place < length checks.now →
        HasRoom (length buffer.old) (string_bytes (get_or checks.now place other).name) }
    requires least { PIECE ≤ length buffer.old }
    ensures { EndsPutting (findings_text scale (map finding_of checks.now) end)
        (output_told (O.told out.old) (O.told out.new)) result }
{
    put_checks(checks, scale, buffer, out)?;
    put_end(end, scale, buffer, out)
}
