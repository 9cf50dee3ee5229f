//! Laws of the printed texts, each as a function whose contract it is.
ghost use Rattle.std.specs.Prelude.{◌≡◌, ◌<◌, ◌<ℤ◌, ◌≤◌, AllPairs, ◌^◌, ◌↔◌, ℕ, List, ◌∷◌, ◌++◌, codes};
ghost use Rattle.tre_pairs.specs.declared.TheConstants.{TIME_MAX};
ghost use Rattle.tre_zone.specs.declared.zone_bounds.ZoneBounds.{ZoneBounds};
ghost use Rattle.tre_zone.specs.Zone.{IsCanonical, ZoneHolds};
ghost use Rattle.tre_show.specs.Shown.{ShownHolds, IsTightShown, shown};
ghost use Rattle.tre_zone.specs.ZoneList.{AreCanonical};
ghost use Rattle.std.specs.Cmp.Lexicographic.{slice_cmp};
ghost use Rattle.std.specs.Ordering.{int_cmp};
ghost use Rattle.std.specs.declared.cmp.Ordering.TheVariants.{Less};
ghost use Rattle.tre_decimal.specs.Decimal.{number_text};
ghost use Rattle.tre_show.specs.Line.{line_of, lines_of, offline_text, TellsZone};
ghost use Rattle.tre_show.specs.Order.{sort_key, IsRising, LineComesBefore};

use tre_decimal::one_number;

/// At each scale, the line of a zone tells exactly the pairs that the zone holds.
pub fn line_tells_zone()
    ensures { (scale : ℕ) (zone : ZoneBounds) → IsCanonical zone →
        TellsZone scale (line_of scale zone) zone }
{}

/// A canonical zone holds exactly the pairs that its three printed ranges hold, and each of these
/// is the smallest that the pairs allow.
pub fn shown_zones()
    ensures holds { (zone : ZoneBounds) → IsCanonical zone → (a b n : ℕ) → 0 < n →
        ZoneHolds zone a b n ↔ ShownHolds (shown zone) a b n }
    ensures tight { (zone : ZoneBounds) → IsCanonical zone → IsTightShown (shown zone) }
{}

/// A printed text is that of one list of zones, and of one end, at each scale. The end of a trace
/// is at most `TIME_MAX`.
pub fn one_text()
    ensures zones { (scale : ℕ) (zones others : List ZoneBounds) (end other : ℕ) →
        AreCanonical zones → AreCanonical others →
        offline_text scale zones end ≡ offline_text scale others other → zones ≡ others }
    ensures end { (scale : ℕ) (zones others : List ZoneBounds) (end other : ℕ) →
        AreCanonical zones → AreCanonical others → end ≤ TIME_MAX → other ≤ TIME_MAX →
        offline_text scale zones end ≡ offline_text scale others other → end ≡ other }
{
    one_number();
}

/// Where a longer text goes on with lines of zones and a letter of the alphabet behind them (97 is
/// the byte of `a`), they are those of one list of zones; where it goes on with a number that fills
/// its line, that is one number; and where it goes on with the line of a zone, whatever stands
/// behind it, that is of one zone. What follows is the same too.
pub fn one_front()
    ensures line { (scale : ℕ) (zone other : ZoneBounds) (rest other_rest : List ℕ) →
        IsCanonical zone → IsCanonical other →
        line_of scale zone ++ rest ≡ line_of scale other ++ other_rest →
        (zone ≡ other) × (rest ≡ other_rest) }
    ensures lines { (scale : ℕ) (zones others : List ZoneBounds) (letter other : ℕ)
        (rest other_rest : List ℕ) →
        AreCanonical zones → AreCanonical others → 97 ≤ letter → 97 ≤ other →
        lines_of scale zones ++ (letter ∷ rest) ≡ lines_of scale others ++ (other ∷ other_rest) →
        (zones ≡ others) × (letter ≡ other) × (rest ≡ other_rest) }
    ensures number { (scale number other : ℕ) (rest other_rest : List ℕ) →
        number < 2 ^ 64 → other < 2 ^ 64 →
        number_text scale number ++ (codes "\n" ++ rest)
        ≡ number_text scale other ++ (codes "\n" ++ other_rest) →
        (number ≡ other) × (rest ≡ other_rest) }
{
    one_number();
}

/// The order of the lines, by the ranges that stand on them: the begin decides, or else the end, or
/// else the duration; in each the low end, or else the high end; and of two equal numbers a low end
/// that is included comes first, and a high end that isn't.
pub fn line_order()
    ensures { (zone other : ZoneBounds) → IsCanonical zone → IsCanonical other →
        slice_cmp int_cmp (sort_key zone) (sort_key other) ≡ Less → LineComesBefore zone other }
{}

/// Zones stand in the order in which they are printed where each begins later than all before it.
pub fn later_rise()
    ensures { (zones : List ZoneBounds) →
        AllPairs (λ zone later. later.begin_low <ℤ zone.begin_low) zones → IsRising zones }
{}
