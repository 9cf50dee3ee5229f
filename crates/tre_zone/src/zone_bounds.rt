ghost use Rattle.std.specs.Prelude.{◌≡◌, ◌^◌, ◌↔◌, IsTrue};
ghost use Rattle.tre_zone.specs.Zone.{AreKeysWithin, Covers, LeavesRoom};
ghost use Rattle.tre_zone.specs.Closing.{framed_of, closed_of, tighter_of};

use crate::bound::Bound;
use tre_pairs::TIME_MAX;

/// Six bounds on a pair of times `t <= t'`: the shape of a zone, whether or not it is one.
#[derive(Clone, Copy, PartialEq, Eq)]
pub struct ZoneBounds {
    /// On `-t`.
    pub begin_low: Bound,
    /// On `t`.
    pub begin_high: Bound,
    /// On `-t'`.
    pub end_low: Bound,
    /// On `t'`.
    pub end_high: Bound,
    /// On `-(t' - t)`.
    pub dur_low: Bound,
    /// On `t' - t`.
    pub dur_high: Bound,
}

impl ZoneBounds {
    // The bounds, and those of the frame `0 <= t <= t' <= TIME_MAX`.
    pub(crate) fn framed(&self) -> ZoneBounds
        ensures { result ≡ framed_of self.now }
    {
        let zero = Bound::weak(0);
        ZoneBounds {
            begin_low: self.begin_low.tighter(&zero),
            begin_high: self.begin_high,
            end_low: self.end_low,
            end_high: self.end_high.tighter(&Bound::weak(TIME_MAX as i64)),
            dur_low: self.dur_low.tighter(&zero),
            dur_high: self.dur_high,
        }
    }

    // One round of shortest paths over the three times 0, `t` and `t'`, which is enough for three.
    pub(crate) fn closed(&self) -> ZoneBounds
        requires { AreKeysWithin (2 ^ 45) self.now }
        ensures { result ≡ closed_of self.now }
    {
        ZoneBounds {
            begin_low: self.begin_low.tighter(&self.end_low.plus(&self.dur_high)),
            begin_high: self.begin_high.tighter(&self.dur_low.plus(&self.end_high)),
            end_low: self.end_low.tighter(&self.begin_low.plus(&self.dur_low)),
            end_high: self.end_high.tighter(&self.dur_high.plus(&self.begin_high)),
            dur_low: self.dur_low.tighter(&self.begin_high.plus(&self.end_low)),
            dur_high: self.dur_high.tighter(&self.end_high.plus(&self.begin_low)),
        }
    }

    // Whether each difference has room between its two bounds. Closed bounds then hold some pair.
    pub(crate) fn leaves_room(&self) -> bool
        requires { AreKeysWithin (2 ^ 47) self.now }
        ensures { IsTrue result ↔ LeavesRoom self.now }
    {
        self.begin_low.leaves_room(&self.begin_high)
            && self.end_low.leaves_room(&self.end_high)
            && self.dur_low.leaves_room(&self.dur_high)
    }

    // The tighter bound of each two.
    pub(crate) fn tighter(&self, other: &ZoneBounds) -> ZoneBounds
        ensures { result ≡ tighter_of self.now other.now }
    {
        ZoneBounds {
            begin_low: self.begin_low.tighter(&other.begin_low),
            begin_high: self.begin_high.tighter(&other.begin_high),
            end_low: self.end_low.tighter(&other.end_low),
            end_high: self.end_high.tighter(&other.end_high),
            dur_low: self.dur_low.tighter(&other.dur_low),
            dur_high: self.dur_high.tighter(&other.dur_high),
        }
    }

    // Whether each of the six bounds is met wherever the other's is.
    pub(crate) fn covers(&self, other: &ZoneBounds) -> bool
        ensures { IsTrue result ↔ Covers self.now other.now }
    {
        self.begin_low.covers(&other.begin_low)
            && self.begin_high.covers(&other.begin_high)
            && self.end_low.covers(&other.end_low)
            && self.end_high.covers(&other.end_high)
            && self.dur_low.covers(&other.dur_low)
            && self.dur_high.covers(&other.dur_high)
    }
}
