// The text of a whole match, written by pieces.
ghost use Rattle.std.specs.Prelude.{◌≡◌, ◌≤◌, ◌+◌, ◌-◌, ◌*◌, drop, length, IfOk};
ghost use Rattle.std.specs.List.{slice_range};
ghost use Rattle.tre_answer.specs.Printing.{EndsPutting};
ghost use Rattle.tre_decimal.specs.declared.TheConstants.{SCALE_MAX};
ghost use Rattle.tre_show.specs.Line.{lines_of, offline_text};
ghost use Rattle.tre_tell.specs.Outputs.{output_told};

use std::alloc::{AllocError, Global};
use tre_feed::{Fault, write_bytes};
use tre_io::Sink;
use tre_show::{LINE_MAX, Zones, write_lines, write_time};

/// How many bytes of the text are written at once, at the most.
pub const PIECE: usize = 65_536;

/// How many lines of zones these have room for, beside the line of the end.
const PIECE_LINES: usize = 339;

/// Room in which the pieces of a text are made.
pub fn piece_room(alloc: Global) -> Result<Vec<u8>, AllocError>
    ensures { IfOk result (λ room. length room.items ≡ PIECE) }
{
    vec![in alloc; 0u8; PIECE]
}

/// Writes the lines of the zones, and then the end of the trace. Each piece of the text is made in
/// the buffer: once something was written, no memory can be wanting.
pub fn write_matches<Z: Zones, O: Sink>(
    zones: &Z,
    end: u64,
    scale: u8,
    buffer: &mut [u8],
    out: &mut O,
) -> Result<(), Fault>
    requires scale { scale ≤ SCALE_MAX }
    requires room { length buffer.old ≡ PIECE }
    ensures { EndsPutting (offline_text scale (Z.zones zones.now) end)
        (output_told (O.told out.old) (O.told out.new)) result }
{
    let count = zones.count();
    let mut from = 0;
    while count - from > PIECE_LINES {
        put_lines(zones, from, from + PIECE_LINES, scale, buffer, out)?;
        from += PIECE_LINES;
    }
    put_last(zones, from, end, scale, buffer, out)
}

// Writes the lines of a few zones, from one place to another.
fn put_lines<Z: Zones, O: Sink>(
    zones: &Z,
    from: usize,
    to: usize,
    scale: u8,
    buffer: &mut [u8],
    out: &mut O,
) -> Result<(), Fault>
    requires scale { scale ≤ SCALE_MAX }
    requires places { (from ≤ to) × (to ≤ length (Z.zones zones.now)) }
    requires room { (to - from) * LINE_MAX ≤ length buffer.old }
    ensures { EndsPutting (lines_of scale (slice_range (Z.zones zones.now) from to))
        (output_told (O.told out.old) (O.told out.new)) result }
{
    let begin = write_lines(zones, from, to, scale, buffer, buffer.len());
    write_bytes(&buffer[begin..], out)
}

// Writes the lines of the zones from the place on, and then the end of the trace.
fn put_last<Z: Zones, O: Sink>(
    zones: &Z,
    from: usize,
    end: u64,
    scale: u8,
    buffer: &mut [u8],
    out: &mut O,
) -> Result<(), Fault>
    requires scale { scale ≤ SCALE_MAX }
    requires places { from ≤ length (Z.zones zones.now) }
    requires room { (length (Z.zones zones.now) - from + 2) * LINE_MAX ≤ length buffer.old }
    ensures { EndsPutting (offline_text scale (drop from (Z.zones zones.now)) end)
        (output_told (O.told out.old) (O.told out.new)) result }
{
    let begin = write_time("end ", end, scale, buffer, buffer.len());
    let begin = write_lines(zones, from, zones.count(), scale, buffer, begin);
    write_bytes(&buffer[begin..], out)
}
