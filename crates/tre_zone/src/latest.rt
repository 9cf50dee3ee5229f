// The first tick by which the pairs of zones have ended.
ghost use Rattle.std.specs.Prelude.{[], ◌∷◌};
ghost use Rattle.tre_zone.specs.Held.{IsLatest};

use crate::zone::Zone;

impl Zone {
    /// The first tick by which each pair of the zone has ended.
    pub fn latest_end(&self) -> u64
        ensures { IsLatest result (self.now ∷ []) }
    {
        self.bounds().end_high.value().unsigned_abs()
    }
}

/// The first tick by which each pair of the zones has ended, 0 where there is none.
pub fn latest_end(zones: &[Zone]) -> u64
    ensures { IsLatest result zones.now }
{
    let mut latest: u64 = 0;
    for zone in zones {
        latest = latest.max(zone.latest_end());
    }
    latest
}
