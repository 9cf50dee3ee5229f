// The stretches of one run that last so long. Of a run every stretch counts, so a limit on their
// durations says at once how late they begin and how early they end.
ghost use Rattle.std.specs.Prelude.{ℕ, ◌-◌, ◌+◌, ◌*◌, ◌^◌, ◌<◌, ◌≤◌, ◌≤ℤ◌, ◌↔◌, pos, MatchBool};
ghost use Rattle.tre_pairs.specs.Pairs.{Lasting};
ghost use Rattle.tre_pairs.specs.declared.TheConstants.{TIME_MAX};
ghost use Rattle.tre_zone.specs.Bound.{Meets, IsKeyWithin};
ghost use Rattle.tre_zone.specs.Interval.{IsAboveLow, IsBelowHigh, LastsWithin};
ghost use Rattle.tre_zone.specs.Zone.{IsInSpan, GivesZone};

use tre_pairs::TIME_MAX;
use tre_zone::{Bound, Interval, Zone, ZoneBounds};

/// The pairs with `begin <= t < t' <= end` whose duration is in the interval, None where there is
/// none.
#[inline(always)]
pub(crate) fn span_within(begin: u64, end: u64, interval: &Interval) -> Option<Zone>
    requires rising { begin < end }
    requires limit { end ≤ TIME_MAX }
    ensures { GivesZone result (Lasting (LastsWithin interval.now) (IsInSpan begin end)) }
{
    let low = least_of(interval);
    let high = most_of(interval, end - begin);
    if low.plus(&high).key() < 1 {
        return None;
    }
    let from = Bound::weak(-(begin as i64));
    let to = Bound::weak(end as i64);
    Some(Zone::from_canonical(&ZoneBounds {
        begin_low: from,
        begin_high: low.plus(&to),
        end_low: from.plus(&low),
        end_high: to,
        dur_low: low,
        dur_high: high,
    }))
}

// The bound on the negated duration of a stretch, which is no instant, that lasts long enough.
fn least_of(interval: &Interval) -> Bound
    ensures key { IsKeyWithin (2 ^ 42) result }
    ensures rising { result ≤ℤ pos 0 }
    ensures meaning { (p q n : ℕ) → 0 < n → p ≤ q
        → Meets result p q n ↔ ((p < q) × IsAboveLow interval.now (q - p) n) }
{
    Bound::strict(0).tighter(&low_end(interval))
}

// The lower end as a bound on a negated duration.
fn low_end(interval: &Interval) -> Bound
    ensures key { IsKeyWithin (2 ^ 42) result }
    ensures meaning { (p q n : ℕ) → p ≤ q
        → Meets result p q n ↔ IsAboveLow interval.now (q - p) n }
{
    let low = -(interval.low() as i64);
    if interval.low_weak() {
        Bound::weak(low)
    } else {
        Bound::strict(low)
    }
}

// The bound on the duration of a stretch of a run of this length that is short enough.
fn most_of(interval: &Interval, length: u64) -> Bound
    requires { length ≤ TIME_MAX }
    ensures low { pos 0 ≤ℤ result }
    ensures high { result ≤ℤ pos (2 * length + 1) }
    ensures meaning { (p q n : ℕ) → 0 < n → q ≤ p → Meets result p q n
        ↔ ((p - q ≤ length * n) × IsBelowHigh interval.now (p - q) n) }
{
    let whole = Bound::weak(length as i64);
    match interval.high() {
        None => whole,
        Some(high) => whole.tighter(&high_end(high, interval.high_weak())),
    }
}

// The upper end as a bound on a duration.
fn high_end(high: u64, weak: bool) -> Bound
    requires { high ≤ TIME_MAX }
    ensures key { pos 0 ≤ℤ result }
    ensures meaning { (p q n : ℕ) → q ≤ p
        → Meets result p q n ↔ MatchBool weak (p - q ≤ high * n) (p - q < high * n) }
{
    if weak {
        Bound::weak(high as i64)
    } else {
        Bound::strict(high as i64)
    }
}
