//! Laws of the difference of two sets, as functions whose contracts they are.

ghost use Rattle.std.specs.Prelude.{◌≡◌, ℕ, ◌<◌, ◌≤◌, ◌↔◌, List, []};
ghost use Rattle.tre_pairs.specs.Pairs.{Either, Both};
ghost use Rattle.tre_pairs.specs.Except.{Except};
ghost use Rattle.tre_zone.specs.Zone.{HasNoPair};
ghost use Rattle.tre_zone.specs.ZoneList.{SetHolds, AreCanonical, HoldExactly};
ghost use Rattle.tre_zone.specs.declared.zone_bounds.ZoneBounds.{ZoneBounds};

/// Nothing is left of a set without itself.
pub fn itself()
    ensures { (zones left : List ZoneBounds) → AreCanonical left
        → HoldExactly left (Except (SetHolds zones) (SetHolds zones)) → left ≡ [] }
{}

/// What is left shares no pair with what was taken.
pub fn apart()
    ensures { (zones taken left : List ZoneBounds)
        → HoldExactly left (Except (SetHolds zones) (SetHolds taken))
        → HasNoPair (Both (SetHolds left) (SetHolds taken)) }
{}

/// What is left makes with what was taken what the two sets hold.
pub fn union()
    ensures { (zones taken left : List ZoneBounds)
        → HoldExactly left (Except (SetHolds zones) (SetHolds taken))
        → (a b n : ℕ) → 0 < n → a ≤ b
        → Either (SetHolds left) (SetHolds taken) a b n
        ↔ Either (SetHolds zones) (SetHolds taken) a b n }
{}
