ghost use Rattle.std.specs.Prelude.{◌≡◌, ℕ, ◌*◌, ◌^◌, ◌≤◌, ◌<◌, ◌↔◌, IsTrue, pos, ◌*ℤ◌};
ghost use Rattle.tre_pairs.specs.Pairs.{Both, Lasting};
ghost use Rattle.tre_zone.specs.Bound.{Meets};
ghost use Rattle.tre_zone.specs.Interval.{LastsWithin};
ghost use Rattle.tre_zone.specs.Zone.{ZoneHolds, Includes, Covers, IsCanonical, IsFramed, IsTight, HoldsSome, IsInSpan};
ghost use Rattle.tre_zone.specs.Zone.{IsInstantBetween, EndsAt, IsInFrame, GivesZone, AreKeysWithin, AreValuesWithin};
ghost use Rattle.tre_zone.specs.Zone.{span_of, instants_of, onward_of, IsOnward, row_of};

use crate::bound::Bound;
use crate::interval::Interval;
use crate::zone_bounds::ZoneBounds;
use std::marker::Model;
use tre_pairs::TIME_MAX;

/// A set of pairs of times `t <= t'` under six bounds, never empty, each bound the tightest that
/// the set allows.
#[derive(Clone, Copy, PartialEq, Eq)]
pub struct Zone {
    bounds: ZoneBounds,
}

impl Model for Zone {
    ghost use Rattle.tre_zone.specs.declared.zone_bounds.ZoneBounds.{ZoneBounds};
    ghost use Rattle.tre_zone.specs.Zone.{IsCanonical};

    ghost Value = { ZoneBounds };

    ghost view = { λ zone. zone.bounds };

    ghost invariant = { λ zone. IsCanonical zone.bounds };

    ghost inverse = { λ bounds. record { bounds = bounds } };
}

impl Zone {
    /// The pairs that meet the six bounds and lie in the frame `0 <= t <= t' <= TIME_MAX`, None
    /// where there is none.
    pub fn new(bounds: &ZoneBounds) -> Option<Zone>
        requires { AreValuesWithin (2 ^ 42) bounds.now }
        ensures { GivesZone result (Both (ZoneHolds bounds.now) (IsInFrame TIME_MAX)) }
    {
        canonical(&bounds.framed())
    }

    /// The pairs with `begin <= t < t' <= end`: a stretch of more than an instant inside a run.
    pub fn span(begin: u64, end: u64) -> Zone
        requires rising { begin < end }
        requires limit { end ≤ TIME_MAX }
        ensures bounds { result ≡ span_of begin end }
        ensures held { (a b n : ℕ) → 0 < n → ZoneHolds result a b n ↔ IsInSpan begin end a b n }
    {
        let from = begin as i64;
        let to = end as i64;
        Zone {
            bounds: ZoneBounds {
                begin_low: Bound::weak(-from),
                begin_high: Bound::strict(to),
                end_low: Bound::strict(-from),
                end_high: Bound::weak(to),
                dur_low: Bound::strict(0),
                dur_high: Bound::weak(to - from),
            },
        }
    }

    /// The pairs of instants `(t,t)` with `from <= t <= to`.
    pub fn instants(from: u64, to: u64) -> Zone
        requires rising { from ≤ to }
        requires limit { to ≤ TIME_MAX }
        ensures bounds { result ≡ instants_of from to }
        ensures held { (a b n : ℕ) → 0 < n
            → ZoneHolds result a b n ↔ IsInstantBetween from to a b n }
    {
        let low = Bound::weak(-(from as i64));
        let high = Bound::weak(to as i64);
        let zero = Bound::weak(0);
        Zone {
            bounds: ZoneBounds {
                begin_low: low,
                begin_high: high,
                end_low: low,
                end_high: high,
                dur_low: zero,
                dur_high: zero,
            },
        }
    }

    /// The pairs `(from,t')` with `from <= t' <= to`: what began at `from` and holds on.
    pub fn onward(from: u64, to: u64) -> Zone
        requires rising { from ≤ to }
        requires limit { to ≤ TIME_MAX }
        ensures bounds { result ≡ onward_of from to }
        ensures held { (a b n : ℕ) → 0 < n → ZoneHolds result a b n ↔ IsOnward from to a b n }
    {
        let begin = from as i64;
        let end = to as i64;
        let low = Bound::weak(-begin);
        Zone {
            bounds: ZoneBounds {
                begin_low: low,
                begin_high: Bound::weak(begin),
                end_low: low,
                end_high: Bound::weak(end),
                dur_low: Bound::weak(0),
                dur_high: Bound::weak(end - begin),
            },
        }
    }

    /// Whether the pair of the times `a/n` and `b/n` is in the zone.
    pub fn holds(&self, a: u64, b: u64, n: u32) -> bool
        requires { 0 < n }
        ensures { IsTrue result ↔ ZoneHolds self.now a b n }
    {
        let bounds = &self.bounds;
        is_met(&bounds.begin_low, 0, a, n)
            && is_met(&bounds.begin_high, a, 0, n)
            && is_met(&bounds.end_low, 0, b, n)
            && is_met(&bounds.end_high, b, 0, n)
            && is_met(&bounds.dur_low, a, b, n)
            && is_met(&bounds.dur_high, b, a, n)
    }

    /// Whether every pair of `other` is in this zone: by the six keys alone.
    pub fn includes(&self, other: &Zone) -> bool
        ensures keys { IsTrue result ↔ Covers self.now other.now }
        ensures pairs { IsTrue result ↔ Includes self.now other.now }
    {
        self.bounds.covers(&other.bounds)
    }

    /// The pairs in both zones, None where there is none.
    pub fn meet(&self, other: &Zone) -> Option<Zone>
        ensures { GivesZone result (Both (ZoneHolds self.now) (ZoneHolds other.now)) }
    {
        canonical(&self.bounds.tighter(&other.bounds))
    }

    /// The pairs whose duration is in the interval, None where there is none.
    pub fn within(&self, interval: &Interval) -> Option<Zone>
        ensures { GivesZone result (Lasting (LastsWithin interval.now) (ZoneHolds self.now)) }
    {
        let bounds = &self.bounds;
        canonical(&ZoneBounds {
            begin_low: bounds.begin_low,
            begin_high: bounds.begin_high,
            end_low: bounds.end_low,
            end_high: bounds.end_high,
            dur_low: bounds.dur_low.tighter(&interval.low_bound()),
            dur_high: interval.bounded(&bounds.dur_high),
        })
    }

    /// The pairs that end at `time`, None where there is none.
    pub fn ending_at(&self, time: u64) -> Option<Zone>
        requires { time ≤ TIME_MAX }
        ensures { GivesZone result (Both (ZoneHolds self.now) (EndsAt time)) }
    {
        let bounds = &self.bounds;
        canonical(&ZoneBounds {
            begin_low: bounds.begin_low,
            begin_high: bounds.begin_high,
            end_low: bounds.end_low.tighter(&Bound::weak(-(time as i64))),
            end_high: bounds.end_high.tighter(&Bound::weak(time as i64)),
            dur_low: bounds.dur_low,
            dur_high: bounds.dur_high,
        })
    }

    /// The six bounds, each the tightest that the zone allows.
    pub fn bounds(&self) -> ZoneBounds
        ensures same { result ≡ self.now }
        ensures canonical { IsCanonical self.now }
        ensures keys { AreKeysWithin (2 ^ 42) self.now }
        ensures tight { IsTight self.now }
        ensures some { HoldsSome self.now }
    {
        self.bounds
    }

    /// The zone with these bounds, which are canonical already: the inverse of `bounds`, and no
    /// work.
    pub fn from_canonical(bounds: &ZoneBounds) -> Zone
        requires { IsCanonical bounds.now }
        ensures { result ≡ bounds.now }
    {
        Zone { bounds: *bounds }
    }

    /// The six keys in the order of the fields, then 0 and 0.
    pub fn row(&self) -> [i64; 8]
        ensures { result ≡ row_of self.now }
    {
        let bounds = &self.bounds;
        [
            bounds.begin_low.key(),
            bounds.begin_high.key(),
            bounds.end_low.key(),
            bounds.end_high.key(),
            bounds.dur_low.key(),
            bounds.dur_high.key(),
            0,
            0,
        ]
    }
}

// The zone of the pairs that meet the bounds, None where there is none.
#[inline(always)]
pub(crate) fn canonical(bounds: &ZoneBounds) -> Option<Zone>
    requires framed { IsFramed bounds.now }
    requires keys { AreKeysWithin (2 ^ 45) bounds.now }
    ensures { GivesZone result (ZoneHolds bounds.now) }
{
    // Most bounds that no pair meets leave no room as they stand.
    if !bounds.leaves_room() {
        return None;
    }
    tightened(bounds)
}

// The same, by the tightest of such bounds.
#[inline(always)]
fn tightened(bounds: &ZoneBounds) -> Option<Zone>
    requires framed { IsFramed bounds.now }
    requires keys { AreKeysWithin (2 ^ 45) bounds.now }
    ensures { GivesZone result (ZoneHolds bounds.now) }
{
    let closed = bounds.closed();
    if closed.leaves_room() {
        Some(Zone { bounds: closed })
    } else {
        None
    }
}

// Whether the difference of `p/n` and `q/n` meets the bound.
fn is_met(bound: &Bound, p: u64, q: u64, n: u32) -> bool
    ensures { IsTrue result ↔ Meets bound.now p q n }
{
    let most = product(bound.value(), n);
    let difference = i128::from(p) - i128::from(q);
    if bound.is_weak() {
        difference <= most
    } else {
        difference < most
    }
}

fn product(c: i64, n: u32) -> i128
    ensures { result ≡ c *ℤ pos n }
{
    i128::from(c) * i128::from(n)
}
