// The lines of many zones, written from the last to the first into a buffer.
ghost use Rattle.std.specs.Prelude.{◌≡◌, ◌≤◌, ◌<◌, ◌-◌, ◌*◌, ◌++◌, drop, get_or, length};
ghost use Rattle.std.specs.List.{slice_range};
ghost use Rattle.tre_decimal.specs.declared.TheConstants.{SCALE_MAX};
ghost use Rattle.tre_show.specs.Line.{lines_of};

use crate::line::{LINE_MAX, write_line};
use tre_zone::Zone;

/// Zones in some order, each at its place.
pub trait Zones {
    ghost use Rattle.std.specs.Prelude.{List};
    ghost use Rattle.tre_zone.specs.declared.zone_bounds.ZoneBounds.{ZoneBounds};

    /// The list of them.
    ghost zones: { Self → List ZoneBounds };

    /// How many there are.
    fn count(&self) -> usize
        ensures { result ≡ length (zones self.now) };

    /// The zone at the place.
    fn zone(&self, place: usize) -> Zone
        requires { place < length (zones self.now) }
        ensures { (other : ZoneBounds) → result ≡ get_or (zones self.now) place other };
}

impl Zones for Vec<Zone> {
    ghost zones = { λ zones. zones.items };

    #[inline(always)]
    fn count(&self) -> usize {
        self.len()
    }

    #[inline(always)]
    fn zone(&self, place: usize) -> Zone {
        self[place]
    }
}

/// Writes the lines of the zones from one place to another, so that the last of them ends at `end`.
/// Says where the first begins.
pub fn write_lines<Z: Zones>(
    zones: &Z,
    from: usize,
    to: usize,
    scale: u8,
    buffer: &mut [u8],
    end: usize,
) -> usize
    requires scale { scale ≤ SCALE_MAX }
    requires places { (from ≤ to) × (to ≤ length (Z.zones zones.now)) }
    requires room { ((to - from) * LINE_MAX ≤ end) × (end ≤ length buffer.old) }
    ensures lines { drop result buffer.new
        ≡ lines_of scale (slice_range (Z.zones zones.now) from to) ++ drop end buffer.old }
    ensures begin { result ≤ end }
{
    let mut begin = end;
    let mut left = to;
    while left > from {
        left -= 1;
        begin = write_line(&zones.zone(left), scale, buffer, begin);
    }
    begin
}
