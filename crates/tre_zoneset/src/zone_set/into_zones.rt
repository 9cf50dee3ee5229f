// A set that is not needed any more.
ghost use Rattle.std.specs.Prelude.{◌≡◌};
ghost use Rattle.tre_zoneset.specs.ZoneSet.{IsZoneSet};

use super::ZoneSet;
use tre_zone::Zone;

impl ZoneSet {
    /// The zones as they stand, in the memory where they stand.
    pub fn into_zones(self) -> Vec<Zone>
        ensures same { result.items ≡ self }
        ensures set { IsZoneSet result.items }
    {
        self.zones
    }
}
