// The stretches of one run that begin or end at its edges, as one zone.
ghost use Rattle.std.specs.Prelude.{◌≡◌, ◌-◌, ◌+◌, ◌*◌, ◌<◌, ◌≤◌, ◌&&◌, if◌then◌else◌, pos, ◌-ℤ◌, neg_ℤ};
ghost use Rattle.tre_pairs.specs.Pairs.{Lasting};
ghost use Rattle.tre_pairs.specs.declared.TheConstants.{TIME_MAX};
ghost use Rattle.tre_zone.specs.Zone.{IsZoneOf, GivesZone};
ghost use Rattle.tre_edges.specs.RunParts.{IsPart, LastsIn};
ghost use Rattle.tre_edges.specs.RunsInTime.{part_of};

use crate::run_edges::RunEdges;
use crate::span_within::span_within;
use tre_zone::{Bound, Interval, Zone, ZoneBounds};

/// The stretches of a run from `begin` to `end` that begin and end at these edges, and whose
/// duration is in the interval, where there is one. None where there is none.
#[inline(always)]
pub(crate) fn part_within(
    begin: u64,
    end: u64,
    edges: RunEdges,
    interval: &Option<Interval>,
) -> Option<Zone>
    requires rising { begin < end }
    requires limit { end ≤ TIME_MAX }
    ensures { GivesZone result (Lasting (LastsIn interval.now) (IsPart edges begin end)) }
{
    match interval {
        None => Some(part_of_run(begin, end, edges)),
        Some(interval) => {
            if edges.rise || edges.fall {
                return part_of_run(begin, end, edges).within(interval);
            }
            span_within(begin, end, interval)
        }
    }
}

/// All of them, however long they last.
#[inline(always)]
pub(crate) fn part_of_run(begin: u64, end: u64, edges: RunEdges) -> Zone
    requires rising { begin < end }
    requires limit { end ≤ TIME_MAX }
    ensures bounds { result ≡ part_of edges.rise edges.fall begin end }
    ensures held { IsZoneOf result (IsPart edges begin end) }
{
    Zone::from_canonical(&ZoneBounds {
        begin_low: Bound::weak(-(begin as i64)),
        begin_high: latest_begin(edges.rise, begin, end),
        end_low: earliest_end(edges.fall, begin, end),
        end_high: Bound::weak(end as i64),
        dur_low: least_length(edges, end - begin),
        dur_high: Bound::weak((end - begin) as i64),
    })
}

// The bound on a begin: no later than the rise, or before the end of the run.
#[inline(always)]
fn latest_begin(rise: bool, begin: u64, end: u64) -> Bound
    requires begin { begin ≤ TIME_MAX }
    requires end { end ≤ TIME_MAX }
    ensures { result ≡ (if rise then pos (2 * begin + 1) else pos (2 * end)) }
{
    if rise {
        Bound::weak(begin as i64)
    } else {
        Bound::strict(end as i64)
    }
}

// The bound on a negated end: no earlier than the fall, or behind the begin of the run.
#[inline(always)]
fn earliest_end(fall: bool, begin: u64, end: u64) -> Bound
    requires begin { begin ≤ TIME_MAX }
    requires end { end ≤ TIME_MAX }
    ensures { result ≡ (if fall then pos 1 -ℤ pos (2 * end) else neg_ℤ (pos (2 * begin))) }
{
    if fall {
        Bound::weak(-(end as i64))
    } else {
        Bound::strict(-(begin as i64))
    }
}

// The bound on a negated duration: all of the run, or more than an instant.
#[inline(always)]
fn least_length(edges: RunEdges, length: u64) -> Bound
    requires { length ≤ TIME_MAX }
    ensures { result
        ≡ (if edges.rise && edges.fall then pos 1 -ℤ pos (2 * length) else pos 0) }
{
    if edges.rise && edges.fall {
        Bound::weak(-(length as i64))
    } else {
        Bound::strict(0)
    }
}
