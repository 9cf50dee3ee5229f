// Zones by their keys, and found zones by their lines.
ghost use Rattle.std.specs.Prelude.{◌^◌, ◌<◌};
ghost use Rattle.tre_zone.specs.Bound.{IsValueWithin};

use tests_support::has_line;
use tre_zone::{Bound, Zone, ZoneBounds};

// The keys of the six bounds, in their order. The last bit of a key tells whether it is weak.
pub(crate) type Keys = [i8; 6];

fn bound(key: i8) -> Bound
    ensures { IsValueWithin (2 ^ 42) result }
{
    let c = i64::from(key) >> 1;
    if key & 1 == 1 {
        Bound::weak(c)
    } else {
        Bound::strict(c)
    }
}

// The zone with these keys.
pub(crate) fn zone(keys: &Keys) -> Option<Zone> {
    Zone::new(&ZoneBounds {
        begin_low: bound(keys[0]),
        begin_high: bound(keys[1]),
        end_low: bound(keys[2]),
        end_high: bound(keys[3]),
        dur_low: bound(keys[4]),
        dur_high: bound(keys[5]),
    })
}

pub(crate) fn holds(zone: &Option<Zone>, a: u8, b: u8, n: u8) -> bool
    requires { 0 < n }
{
    match zone {
        None => false,
        Some(zone) => zone.holds(u64::from(a), u64::from(b), u32::from(n)),
    }
}

// Whether the zone that was found has this line, or none was found and there is none.
pub(crate) fn is(found: &Option<Zone>, line: Option<&str>) -> bool {
    match found {
        None => line.is_none(),
        Some(zone) => match line {
            None => false,
            Some(line) => has_line(zone, line),
        },
    }
}
