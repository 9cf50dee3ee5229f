// Zones by their lines.
ghost use Rattle.std.specs.Prelude.{◌≤◌, ◌^◌, IfSome};
ghost use Rattle.tre_zone.specs.Bound.{IsValueWithin};
ghost use Rattle.tre_zone.specs.Zone.{AreValuesWithin};

use tre_zone::{Bound, TIME_MAX, Zone, ZoneBounds};

// The six bounds that a line such as `[0,3) (0,3] (0,3]` names, whether or not a pair of times
// meets them. None where it is no line.
fn bounds_of(line: &str) -> Option<ZoneBounds>
    ensures { IfSome result (λ bounds. AreValuesWithin (2 ^ 42) bounds) }
{
    let (begin, rest) = line.split_once(' ')?;
    let (end, duration) = rest.split_once(' ')?;
    Some(ZoneBounds {
        begin_low: low_of(begin)?,
        begin_high: high_of(begin)?,
        end_low: low_of(end)?,
        end_high: high_of(end)?,
        dur_low: low_of(duration)?,
        dur_high: high_of(duration)?,
    })
}

/// The zone of the line. None where no pair of times meets its bounds, or it is no line.
pub fn zone_of(line: &str) -> Option<Zone> {
    Zone::new(&bounds_of(line)?)
}

/// Whether the bounds of the zone are those that the line names.
pub fn has_line(zone: &Zone, line: &str) -> bool {
    bounds_of(line) == Some(zone.bounds())
}

// The lower end of a range such as `[0,3)`, as a bound on a negated time.
fn low_of(range: &str) -> Option<Bound>
    ensures { IfSome result (λ bound. IsValueWithin (2 ^ 42) bound) }
{
    let (low, _) = range.split_once(',')?;
    match low.strip_prefix('[') {
        Some(low) => Some(Bound::weak(-(time_of(low)? as i64))),
        None => Some(Bound::strict(-(time_of(low.strip_prefix('(')?)? as i64))),
    }
}

// The upper end of a range such as `[0,3)`.
fn high_of(range: &str) -> Option<Bound>
    ensures { IfSome result (λ bound. IsValueWithin (2 ^ 42) bound) }
{
    let (_, high) = range.split_once(',')?;
    match high.strip_suffix(']') {
        Some(high) => Some(Bound::weak(time_of(high)? as i64)),
        None => Some(Bound::strict(time_of(high.strip_suffix(')')?)? as i64)),
    }
}

fn time_of(text: &str) -> Option<u64>
    ensures { IfSome result (λ time. time ≤ TIME_MAX) }
{
    let time = text.parse::<u64>().ok()?;
    if time <= TIME_MAX { Some(time) } else { None }
}
