// What each who asks sees of what the readers have read.
ghost use Rattle.std.specs.Prelude.{◌≡◌, ◌<◌, ◌++◌, All, length, map, slice_index_or, [], IfOk, OnOk};
ghost use Rattle.std.specs.List.{AllByRecursion};
ghost use Rattle.tre_feed.specs.Shares.{group_of};
ghost use Rattle.tre_feed.specs.Shown.{shown_segment};
ghost use Rattle.tre_trace.specs.Trace.{IsTrace, quiet};
ghost use Rattle.tre_feed.specs.Packing.{CanPack, ended_by, packed_behind};
ghost use Rattle.tre_feed.specs.Seen.{last_seen, lasts_in, no_segment, row_seen, rows_in, segment_seen};

use crate::each::Fed;
use crate::lists::put_last;
use crate::view::View;
use std::alloc::{AllocError, Global};
use tre_packed::Packed;
use tre_trace::Segment;

// The segment at this place of the row of one.
fn segment_at<R: Drop>(each: &[Fed<R>], group: usize, place: usize) -> Segment
    requires group { group < length each.now }
    requires place { place < length (slice_index_or (rows_in each.now) group []) }
    ensures { result ≡ slice_index_or (slice_index_or (rows_in each.now) group []) place
        no_segment }
{
    each[group].row[place]
}

// The events at the end of one.
fn last_at<R: Drop>(each: &[Fed<R>], group: usize) -> u64
    requires { group < length each.now }
    ensures { result ≡ slice_index_or (lasts_in each.now) group 0 }
{
    each[group].last
}

// Puts what each view shows of the segments at this place, in place of those that were there.
pub fn put_column<R: Drop>(
    each: &[Fed<R>],
    place: usize,
    views: &[View],
    segments: &mut Vec<Segment>,
) -> Result<(), AllocError>
    requires within { All (λ view. group_of view < length each.now) views.now }
    requires below { All (λ view. place < length (row_seen (rows_in each.now) view)) views.now }
    ensures { OnOk result (segments.new.items
        ≡ map (segment_seen (rows_in each.now) place) views.now) }
{
    segments.clear();
    for view in views {
        let wide = segment_at(each, view.group(), place);
        segments.push(view.segment(wide))?;
    }
    Ok(())
}

// What each view shows of the events at the end.
pub fn lasts_of<R: Drop>(
    alloc: Global,
    each: &[Fed<R>],
    views: &[View],
) -> Result<Vec<u64>, AllocError>
    requires { All (λ view. group_of view < length each.now) views.now }
    ensures { IfOk result (λ lasts. lasts.items ≡ map (last_seen (lasts_in each.now)) views.now) }
{
    let mut lasts = Vec::new(alloc);
    for view in views {
        lasts.push(view.events(last_at(each, view.group())))?;
    }
    Ok(lasts)
}

// Puts what the view shows of a row behind the trace. The room is to make it in, where that is not
// the row as it stands.
fn pack_row(
    row: &[Segment],
    view: &View,
    room: &mut Vec<Segment>,
    trace: &mut Packed,
) -> Result<(), AllocError>
    requires { IsTrace (trace.old.segments ++ map (shown_segment view.now) row.now) }
    ensures { OnOk result (trace.new
        ≡ quiet (trace.old.segments ++ map (shown_segment view.now) row.now)) }
{
    if view.shows_all(row) {
        return trace.add(row);
    }
    room.clear();
    room.extend_from_slice(row)?;
    view.narrow(room);
    trace.add(room)
}

// Puts what each view shows of the rows behind its trace.
pub fn pack_rows<R: Drop>(
    each: &[Fed<R>],
    views: &[View],
    room: &mut Vec<Segment>,
    traces: &mut [Packed],
) -> Result<(), AllocError>
    requires within { AllByRecursion (λ view. group_of view < length each.now) views.now }
    requires fits { CanPack (rows_in each.now) views.now traces.old }
    ensures { OnOk result (traces.new ≡ packed_behind (rows_in each.now) views.now traces.old) }
{
    let Some((view, others)) = views.split_first() else {
        return Ok(());
    };
    let Some((trace, later)) = traces.split_first_mut() else {
        return Ok(());
    };
    pack_row(row_at(each, view.group()), view, room, trace)?;
    pack_rows(each, others, room, later)
}

// The row of one.
fn row_at<R: Drop>(each: &[Fed<R>], group: usize) -> &[Segment]
    requires { group < length each.now }
    ensures { result.now ≡ slice_index_or (rows_in each.now) group [] }
{
    &each[group].row
}

// Puts what each view shows of the events at the end there, in its trace.
pub fn set_lasts<R: Drop>(each: &[Fed<R>], views: &[View], traces: &mut [Packed])
    requires { All (λ view. group_of view < length each.now) views.now }
    ensures { traces.new ≡ ended_by (lasts_in each.now) views.now traces.old }
{
    let Some((view, others)) = views.split_first() else {
        return;
    };
    let Some((trace, later)) = traces.split_first_mut() else {
        return;
    };
    trace.set_last(view.events(last_at(each, view.group())));
    set_lasts(each, others, later);
}

// A trace of no segments for each view.
pub fn no_traces(alloc: Global, views: &[View]) -> Result<Vec<Packed>, AllocError>
    ensures { IfOk result (λ traces. traces.items ≡ map (λ view. quiet []) views.now) }
{
    let mut traces = Vec::new(alloc);
    for _ in views {
        put_last(&mut traces, Packed::new(alloc))?;
    }
    Ok(traces)
}
