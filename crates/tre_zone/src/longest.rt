// Durations up to a longest one, as the upper end of an interval around an expression allows them.
ghost use Rattle.std.specs.Prelude.{ℕ, ◌≤◌, ◌↔◌, IsTrue, ◌*◌};
ghost use Rattle.tre_pairs.specs.Pairs.{Lasting};
ghost use Rattle.tre_zone.specs.Interval.{LastsWithin};
ghost use Rattle.tre_zone.specs.Longest.{LastsUpTo, AllLastUpTo, IsLongest};
ghost use Rattle.tre_zone.specs.Zone.{ZoneHolds, GivesZone};

use crate::bound::Bound;
use crate::interval::Interval;
use crate::zone::Zone;

impl Interval {
    /// The longest duration that counts inside, where only those up to `longest` count outside.
    pub fn up_to(&self, longest: Option<u64>) -> Option<u64>
        requires { IsLongest longest }
        ensures same { (d n : ℕ) → LastsWithin self.now d n
            → LastsUpTo result d n ↔ LastsUpTo longest d n }
        ensures limit { IsLongest result }
    {
        match self.high() {
            None => longest,
            Some(high) => Some(shorter(high, longest)),
        }
    }
}

impl Zone {
    /// The pairs that last at most `longest`, None where there is none.
    pub fn up_to(&self, longest: Option<u64>) -> Option<Zone>
        requires { IsLongest longest }
        ensures { GivesZone result (Lasting (LastsUpTo longest) (ZoneHolds self.now)) }
    {
        if self.is_up_to(longest) {
            return Some(*self);
        }
        match Interval::new(0, true, longest, true) {
            Some(interval) => self.within(&interval),
            None => None,
        }
    }

    /// Whether every pair lasts at most `longest`: by one key.
    pub fn is_up_to(&self, longest: Option<u64>) -> bool
        requires { IsLongest longest }
        ensures { IsTrue result ↔ AllLastUpTo longest self.now }
    {
        match longest {
            None => true,
            Some(high) => Bound::weak(high as i64).covers(&self.bounds().dur_high),
        }
    }
}

// The shorter of a duration and the longest.
fn shorter(high: u64, longest: Option<u64>) -> u64
    requires { IsLongest longest }
    ensures low { result ≤ high }
    ensures same { (d n : ℕ) → d ≤ high * n → d ≤ result * n ↔ LastsUpTo longest d n }
{
    match longest {
        None => high,
        Some(most) => high.min(most),
    }
}
