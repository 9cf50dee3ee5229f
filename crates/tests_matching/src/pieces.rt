// Pieces of a trace, one behind another, and what of them is told.
ghost use Rattle.std.specs.Prelude.{◌≡◌, ◌≤◌, IfSome};
ghost use Rattle.tre_edges.specs.Piece.{end_of_piece};

use std::alloc::{AllocError, Global};
use std::test::Fail;
use tre_edges::Piece;
use tre_offline::matches;
use tre_syntax::Pattern;
use tre_trace::{Segment, Trace};
use tre_zoneset::ZoneSet;

/// The length of a segment, its valuation, and the events at its begin: of a valuation of 1 p is
/// true, of 2 q, of 3 both.
pub(crate) type Row = (u8, u64, u64);

/// The latest begin of a piece.
const BEGIN_MAX: u64 = 1024;

// The segment of a row, which lasts a tick at least.
fn segment(row: Row) -> Segment
    ensures long { 1 ≤ result.len }
    ensures short { result.len ≤ 256 }
{
    let (len, val, ev) = row;
    Segment {
        len: u64::from(len).max(1),
        val,
        ev,
    }
}

/// The first piece of a trace.
pub(crate) fn first_piece(row: Row) -> Piece {
    Piece {
        begin: 0,
        segment: segment(row),
        before: None,
    }
}

/// The piece behind another, where that doesn't end too late.
pub(crate) fn next_piece(last: &Piece, row: Row) -> Option<Piece>
    ensures { IfSome result (λ piece. piece.begin ≡ end_of_piece last.now) }
{
    let begin = last.begin + last.segment.len;
    if begin > BEGIN_MAX {
        return None;
    }
    Some(Piece {
        begin,
        segment: segment(row),
        before: Some(last.segment.val),
    })
}

// The trace of these segments, with these events at its end.
fn trace_of(alloc: Global, rows: &[Row], events: u64) -> Result<Trace, Fail> {
    let mut trace = Trace::new(alloc);
    for row in rows {
        trace.push(segment(*row))?;
    }
    trace.set_last(events);
    Ok(trace)
}

/// The matches over the trace of these segments, with these events at its end.
pub(crate) fn found(
    alloc: Global,
    pattern: &Pattern,
    rows: &[Row],
    events: u64,
) -> Result<ZoneSet, Fail> {
    let trace = trace_of(alloc, rows, events)?;
    Ok(matches(alloc, pattern, &trace)?)
}
