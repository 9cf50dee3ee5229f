ghost use Rattle.std.specs.Prelude.{◌≡◌, ℕ, ◌-◌, ◌*◌, ◌^◌, ◌≤◌, ◌<◌, ◌↔◌, IsTrue, IsNone, IfSome, MatchOption, MatchBool, pos, neg_ℤ, ◌≤ℤ◌};
ghost use Rattle.tre_zone.specs.Bound.{Meets, IsKeyWithin};
ghost use Rattle.tre_zone.specs.Interval.{IsAboveLow, IsBelowHigh, LastsWithin, kept_weak, HasNoDuration, HasRoom, IsInterval, IsIntervalWithin, ends_of};

use crate::bound::Bound;
use std::marker::Model;
use tre_pairs::TIME_MAX;

/// An interval of durations, such as `[2,5)` or `(3,inf)`, with ends in ticks.
///
/// There is always a duration in it, though maybe none of a whole number of ticks: `(3,4)` holds
/// 7/2.
#[derive(Clone, Copy, PartialEq, Eq)]
pub struct Interval {
    low: u64,
    low_weak: bool,
    high: Option<u64>,
    high_weak: bool,
}

impl Model for Interval {
    ghost use Rattle.tre_zone.specs.Interval.{IntervalEnds, IsInterval, ends_of};

    ghost Value = { IntervalEnds };

    ghost view = { λ i. ends_of i.low i.low_weak i.high i.high_weak };

    ghost invariant = { λ i. IsInterval (ends_of i.low i.low_weak i.high i.high_weak) };

    ghost inverse = { λ ends. record {
      low = ends.low;
      low_weak = ends.low_weak;
      high = ends.high;
      high_weak = ends.high_weak;
    } };
}

impl Interval {
    /// The interval with these ends, each in it where it is `weak`. Without `high` there is no
    /// upper end. None where no duration is in it: `(3,3]` and `[4,2]` have none.
    pub fn new(low: u64, low_weak: bool, high: Option<u64>, high_weak: bool) -> Option<Interval>
        requires low { low ≤ TIME_MAX }
        requires high { MatchOption high (Unit {0}) (λ h. h ≤ TIME_MAX) }
        ensures ends { IfSome result
            (λ interval. interval ≡ ends_of low low_weak high (kept_weak high high_weak)) }
        ensures empty { IsNone result ↔ HasNoDuration (ends_of low low_weak high high_weak) }
    {
        match high {
            None => Some(Interval {
                low,
                low_weak,
                high,
                high_weak: false,
            }),
            Some(top) => {
                if has_room(low, low_weak, top, high_weak) {
                    Some(Interval {
                        low,
                        low_weak,
                        high,
                        high_weak,
                    })
                } else {
                    None
                }
            }
        }
    }

    /// The lower end.
    pub fn low(&self) -> u64
        ensures low { result ≡ self.now.low }
        ensures limit { IsIntervalWithin TIME_MAX self.now }
    {
        self.low
    }

    /// Whether the lower end is in the interval.
    pub fn low_weak(&self) -> bool
        ensures { result ≡ self.now.low_weak }
    {
        self.low_weak
    }

    /// The upper end, None where there is none.
    pub fn high(&self) -> Option<u64>
        ensures high { result ≡ self.now.high }
        ensures limit { IsIntervalWithin TIME_MAX self.now }
    {
        self.high
    }

    /// Whether the upper end is in the interval: never where there is none.
    pub fn high_weak(&self) -> bool
        ensures weak { result ≡ self.now.high_weak }
        ensures interval { IsInterval self.now }
    {
        self.high_weak
    }

    /// Whether the duration `d/n` is in the interval.
    pub fn holds(&self, d: u64, n: u32) -> bool
        requires { 0 < n }
        ensures { IsTrue result ↔ LastsWithin self.now d n }
    {
        self.is_above_low(d, n) && self.is_below_high(d, n)
    }

    // The low end as a bound on a negated duration.
    pub(crate) fn low_bound(&self) -> Bound
        ensures key { IsKeyWithin (2 ^ 42) result }
        ensures meaning { (p q n : ℕ) → p ≤ q → Meets result p q n ↔ IsAboveLow self.now (q - p) n }
    {
        let low = -(self.low as i64);
        if self.low_weak {
            Bound::weak(low)
        } else {
            Bound::strict(low)
        }
    }

    // A bound on a duration, or the high end where that is tighter.
    pub(crate) fn bounded(&self, bound: &Bound) -> Bound
        ensures tighter { result ≤ℤ bound.now }
        ensures key { neg_ℤ (pos (2 ^ 42)) ≤ℤ bound.now → neg_ℤ (pos (2 ^ 42)) ≤ℤ result }
        ensures meaning { (p q n : ℕ) → 0 < n → q ≤ p
            → Meets result p q n ↔ (Meets bound.now p q n × IsBelowHigh self.now (p - q) n) }
    {
        match self.high {
            None => *bound,
            Some(high) => bound.tighter(&high_bound(high, self.high_weak)),
        }
    }

    fn is_above_low(&self, d: u64, n: u32) -> bool
        ensures { IsTrue result ↔ IsAboveLow self.now d n }
    {
        let low = u128::from(self.low) * u128::from(n);
        let d = u128::from(d);
        if self.low_weak { low <= d } else { low < d }
    }

    fn is_below_high(&self, d: u64, n: u32) -> bool
        ensures { IsTrue result ↔ IsBelowHigh self.now d n }
    {
        let Some(high) = self.high else { return true };
        let high = u128::from(high) * u128::from(n);
        let d = u128::from(d);
        if self.high_weak { d <= high } else { d < high }
    }
}

// Whether some duration lies between the two ends.
fn has_room(low: u64, low_weak: bool, high: u64, high_weak: bool) -> bool
    ensures { IsTrue result ↔ HasRoom low low_weak high high_weak }
{
    if low_weak && high_weak {
        low <= high
    } else {
        low < high
    }
}

// The high end as a bound on a duration.
fn high_bound(high: u64, weak: bool) -> Bound
    requires { high ≤ TIME_MAX }
    ensures key { pos 0 ≤ℤ result }
    ensures meaning { (p q n : ℕ) → q ≤ p
        → Meets result p q n ↔ MatchBool weak (p - q ≤ high * n) (p - q < high * n) }
{
    if weak {
        Bound::weak(high as i64)
    } else {
        Bound::strict(high as i64)
    }
}
