ghost use Rattle.std.specs.Prelude.{◌↔◌, Any, IsTrue};
ghost use Rattle.tre_zone.specs.Zone.{Includes};

use crate::row::{HasRow, Row};
use crate::row_index::RowIndex;
use tre_zone::Zone;

impl HasRow for Zone {
    ghost use Rattle.tre_zone.specs.Zone.{row_of};

    ghost row_of = { row_of };

    fn row(&self) -> Row {
        Zone::row(self)
    }
}

/// An index over zones, by their rows.
pub type ZoneIndex = RowIndex<Zone>;

impl RowIndex<Zone> {
    /// Whether one of the zones includes the other.
    pub fn includes(&self, zone: &Zone) -> bool
        ensures { IsTrue result ↔ Any (λ member. Includes member zone.now) self.now }
    {
        // For the proof: the call says that the zone is canonical.
        let _bounds = zone.bounds();
        self.next_at_least(0, &Zone::row(zone)).is_some()
    }
}
