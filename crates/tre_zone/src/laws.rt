//! Laws of zones, as functions whose contracts they are.

ghost use Rattle.std.specs.Prelude.{◌≡◌, ◌*◌, ◌<◌, ◌≤◌, ◌↔◌, ℕ, List};
ghost use Rattle.tre_pairs.specs.declared.TheConstants.{TIME_MAX};
ghost use Rattle.tre_zone.specs.Ranges.{IsInRanges};
ghost use Rattle.tre_zone.specs.Zone.{HoldsSome, Includes, IsCanonical, IsInFrame, IsTight, ZoneHolds};
ghost use Rattle.tre_zone.specs.ZoneList.{AreCanonical, AreTight, SetHolds};
ghost use Rattle.tre_zone.specs.declared.zone_bounds.ZoneBounds.{ZoneBounds};

/// Bounds are canonical exactly where they hold some pair of times, hold none past `TIME_MAX`, and
/// each is the tightest that the pairs allow.
///
/// The pairs are those whose begin is not after their end: canonical bounds hold no other triple `a
/// b n` at all, in whatever order `a` and `b` are given (`rising`). And canonical bounds that hold
/// the same pairs are the same.
pub fn canonical_bounds()
    ensures some { (zone : ZoneBounds) → IsCanonical zone → HoldsSome zone }
    ensures tight { (zone : ZoneBounds) → IsCanonical zone → IsTight zone }
    ensures rising { (zone : ZoneBounds) → IsCanonical zone → (a b n : ℕ) → 0 < n
        → ZoneHolds zone a b n → a ≤ b }
    ensures framed { (zone : ZoneBounds) → IsCanonical zone
        → (a b n : ℕ) → 0 < n → ZoneHolds zone a b n → IsInFrame TIME_MAX a b n }
    ensures enough { (zone : ZoneBounds) → HoldsSome zone → IsTight zone
        → ((a b n : ℕ) → 0 < n → a ≤ b → ZoneHolds zone a b n → IsInFrame TIME_MAX a b n)
        → IsCanonical zone }
    ensures same { (zone other : ZoneBounds) → IsCanonical zone → IsCanonical other
        → Includes zone other → Includes other zone → zone ≡ other }
    ensures lists { (zones : List ZoneBounds) → AreCanonical zones → AreTight zones }
{}

/// Canonical bounds spell three intervals: the low end of each is the value of its low bound,
/// negated, and the high end that of its high bound, each in the interval where its bound is weak.
/// They hold `a b n`, with `a` and `b` in any order, exactly where the begin `a/n` is not after the
/// end `b/n`, and the begin, the end and the duration `(b - a)/n` last within the three.
pub fn canonical_ranges()
    ensures { (zone : ZoneBounds) → IsCanonical zone
        → (a b n : ℕ) → 0 < n → ZoneHolds zone a b n ↔ IsInRanges zone a b n }
{}

/// What a list of zones holds speaks of times, and not of the numbers that name them: `(a,b,n)` and
/// `(ka,kb,kn)` are one pair of times.
pub fn scaling()
    ensures { (zones : List ZoneBounds) (k a b n : ℕ) → 0 < k
        → SetHolds zones a b n ↔ SetHolds zones (k * a) (k * b) (k * n) }
{}
