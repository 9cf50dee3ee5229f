// The zone of what two zones hold together.
ghost use Rattle.std.specs.Prelude.{◌≡◌, ◌^◌, ◌↔◌, IsTrue};
ghost use Rattle.tre_zone.specs.Beyond.{AreHeldBeyond, IsHeldBeyond, key_at, cut_at, looser_of};
ghost use Rattle.tre_zone.specs.United.{GivesUnion};
ghost use Rattle.tre_zone.specs.Zone.{AreKeysWithin, Includes, IsCanonical, IsFramed};

use crate::bound::Bound;
use crate::zone::{Zone, canonical};
use crate::zone_bounds::ZoneBounds;

/// One of the six bounds of a zone.
#[derive(Clone, Copy)]
enum Side {
    BeginLow,
    BeginHigh,
    EndLow,
    EndHigh,
    DurLow,
    DurHigh,
}

impl Zone {
    /// The zone of the pairs of both, None where no zone has just these, as where there is a gap
    /// between them.
    pub fn united(&self, other: &Zone) -> Option<Zone>
        ensures { GivesUnion result self.now other.now }
    {
        let one = self.bounds();
        let whole = one.looser(&other.bounds());
        let whole = Zone::from_canonical(&whole);
        if are_held_beyond(&whole.bounds(), &one, other) {
            Some(whole)
        } else {
            None
        }
    }
}

impl ZoneBounds {
    // The looser bound of each two.
    fn looser(&self, other: &ZoneBounds) -> ZoneBounds
        ensures { result ≡ looser_of self.now other.now }
    {
        ZoneBounds {
            begin_low: self.begin_low.looser(&other.begin_low),
            begin_high: self.begin_high.looser(&other.begin_high),
            end_low: self.end_low.looser(&other.end_low),
            end_high: self.end_high.looser(&other.end_high),
            dur_low: self.dur_low.looser(&other.dur_low),
            dur_high: self.dur_high.looser(&other.dur_high),
        }
    }

    fn at(&self, side: Side) -> Bound
        ensures { result ≡ key_at side self.now }
    {
        match side {
            Side::BeginLow => self.begin_low,
            Side::BeginHigh => self.begin_high,
            Side::EndLow => self.end_low,
            Side::EndHigh => self.end_high,
            Side::DurLow => self.dur_low,
            Side::DurHigh => self.dur_high,
        }
    }

    // The bounds, and one more on the other side of what `side` bounds.
    fn cut_at(&self, side: Side, bound: &Bound) -> ZoneBounds
        ensures { result ≡ cut_at side self.now bound.now }
    {
        let mut cut = *self;
        match side {
            Side::BeginLow => cut.begin_high = self.begin_high.tighter(bound),
            Side::BeginHigh => cut.begin_low = self.begin_low.tighter(bound),
            Side::EndLow => cut.end_high = self.end_high.tighter(bound),
            Side::EndHigh => cut.end_low = self.end_low.tighter(bound),
            Side::DurLow => cut.dur_high = self.dur_high.tighter(bound),
            Side::DurHigh => cut.dur_low = self.dur_low.tighter(bound),
        }
        cut
    }
}

// Whether what lies in the whole beyond any of the six bounds of the one is in the other.
fn are_held_beyond(whole: &ZoneBounds, one: &ZoneBounds, other: &Zone) -> bool
    requires whole { IsCanonical whole.now }
    requires keys { AreKeysWithin (2 ^ 42) whole.now }
    requires one { AreKeysWithin (2 ^ 42) one.now }
    ensures { IsTrue result ↔ AreHeldBeyond whole.now one.now other.now }
{
    is_held_beyond(Side::BeginLow, whole, one, other)
        && is_held_beyond(Side::BeginHigh, whole, one, other)
        && is_held_beyond(Side::EndLow, whole, one, other)
        && is_held_beyond(Side::EndHigh, whole, one, other)
        && is_held_beyond(Side::DurLow, whole, one, other)
        && is_held_beyond(Side::DurHigh, whole, one, other)
}

// The same of one of the bounds. Mostly it is no tighter than that of the whole.
fn is_held_beyond(side: Side, whole: &ZoneBounds, one: &ZoneBounds, other: &Zone) -> bool
    requires whole { IsCanonical whole.now }
    requires keys { AreKeysWithin (2 ^ 42) whole.now }
    requires one { AreKeysWithin (2 ^ 42) one.now }
    ensures { IsTrue result ↔ IsHeldBeyond side whole.now one.now other.now }
{
    let bound = one.at(side);
    if bound.covers(&whole.at(side)) {
        return true;
    }
    is_held(&whole.cut_at(side, &bound.opposite()), other)
}

// Whether the other zone has every pair of the bounds.
fn is_held(bounds: &ZoneBounds, other: &Zone) -> bool
    requires framed { IsFramed bounds.now }
    requires keys { AreKeysWithin (2 ^ 45) bounds.now }
    ensures { IsTrue result ↔ Includes other.now bounds.now }
{
    match canonical(bounds) {
        Some(zone) => other.includes(&zone),
        None => true,
    }
}
