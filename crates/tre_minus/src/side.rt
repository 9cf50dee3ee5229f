ghost use Rattle.std.specs.Prelude.{◌≡◌, ◌^◌, pos, ◌-ℤ◌};
ghost use Rattle.tre_zone.specs.Bound.{IsKeyWithin};
ghost use Rattle.tre_zone.specs.Zone.{AreKeysWithin};
ghost use Rattle.tre_minus.specs.Sides.{missing_of, meeting_of};

use tre_zone::{Bound, ZoneBounds};

/// One of the six bounds of a zone.
#[derive(Clone, Copy)]
pub(crate) enum Side {
    BeginLow,
    BeginHigh,
    EndLow,
    EndHigh,
    DurationLow,
    DurationHigh,
}

/// All six, in the order in which a zone is cut. With the durations first there were up to eight
/// times as many parts, where a zone loses many small ones; with the begins first there never are.
pub(crate) const SIDES: [Side; 6] = [
    Side::BeginLow,
    Side::BeginHigh,
    Side::EndLow,
    Side::EndHigh,
    Side::DurationLow,
    Side::DurationHigh,
];

impl Side {
    // The bounds, and that this bound of `taken` is missed.
    #[tactic(auto, unfolding(crate::specs::Sides::missing_of))]
    pub(crate) fn missing(&self, bounds: &ZoneBounds, taken: &ZoneBounds) -> ZoneBounds
        requires { AreKeysWithin (2 ^ 42) taken.now }
        ensures { result ≡ missing_of self.now bounds.now taken.now }
    {
        match self {
            Side::BeginLow => ZoneBounds {
                begin_high: bounds.begin_high.tighter(&denied(&taken.begin_low)),
                ..*bounds
            },
            Side::BeginHigh => ZoneBounds {
                begin_low: bounds.begin_low.tighter(&denied(&taken.begin_high)),
                ..*bounds
            },
            Side::EndLow => ZoneBounds {
                end_high: bounds.end_high.tighter(&denied(&taken.end_low)),
                ..*bounds
            },
            Side::EndHigh => ZoneBounds {
                end_low: bounds.end_low.tighter(&denied(&taken.end_high)),
                ..*bounds
            },
            Side::DurationLow => ZoneBounds {
                dur_high: bounds.dur_high.tighter(&denied(&taken.dur_low)),
                ..*bounds
            },
            Side::DurationHigh => ZoneBounds {
                dur_low: bounds.dur_low.tighter(&denied(&taken.dur_high)),
                ..*bounds
            },
        }
    }

    // The bounds, and that this bound of `taken` is met.
    #[tactic(auto, unfolding(crate::specs::Sides::meeting_of))]
    pub(crate) fn meeting(&self, bounds: &ZoneBounds, taken: &ZoneBounds) -> ZoneBounds
        ensures { result ≡ meeting_of self.now bounds.now taken.now }
    {
        match self {
            Side::BeginLow => ZoneBounds {
                begin_low: bounds.begin_low.tighter(&taken.begin_low),
                ..*bounds
            },
            Side::BeginHigh => ZoneBounds {
                begin_high: bounds.begin_high.tighter(&taken.begin_high),
                ..*bounds
            },
            Side::EndLow => ZoneBounds {
                end_low: bounds.end_low.tighter(&taken.end_low),
                ..*bounds
            },
            Side::EndHigh => ZoneBounds {
                end_high: bounds.end_high.tighter(&taken.end_high),
                ..*bounds
            },
            Side::DurationLow => ZoneBounds {
                dur_low: bounds.dur_low.tighter(&taken.dur_low),
                ..*bounds
            },
            Side::DurationHigh => ZoneBounds {
                dur_high: bounds.dur_high.tighter(&taken.dur_high),
                ..*bounds
            },
        }
    }
}

// The bound on the difference from the other side that is met exactly where this one is missed.
fn denied(bound: &Bound) -> Bound
    requires { IsKeyWithin (2 ^ 42) bound.now }
    ensures { result ≡ pos 1 -ℤ bound.now }
{
    if bound.is_weak() {
        Bound::strict(-bound.value())
    } else {
        Bound::weak(-bound.value())
    }
}
