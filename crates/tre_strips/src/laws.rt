//! Laws of strips, as functions whose contracts they are.

ghost use Rattle.std.specs.Prelude.{◌≡◌, List};
ghost use Rattle.tre_zone.specs.ZoneList.{SetHolds, AreCanonical, HoldExactly};
ghost use Rattle.tre_zone.specs.declared.zone_bounds.ZoneBounds.{ZoneBounds};
ghost use Rattle.tre_strips.specs.Listed.{AreListed};
ghost use Rattle.tre_strips.specs.Strips.{AreStrips};

/// Sets that hold the same pairs have one list of strips: it depends on the pairs alone.
pub fn one_list()
    ensures { (set other : List ZoneBounds) → AreCanonical set → AreCanonical other
        → HoldExactly set (SetHolds other)
        → (zones others : List ZoneBounds) → AreListed zones → AreListed others
        → AreStrips (SetHolds set) zones → AreStrips (SetHolds other) others → zones ≡ others }
{}
