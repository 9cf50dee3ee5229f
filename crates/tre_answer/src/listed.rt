// What is printed of matches.
ghost use Rattle.tre_answer.specs.Listed.{listed_zones};

use tre_edges::RunSet;
use tre_show::Zones;
use tre_zone::Zone;

/// Zones in the order of printing: as they are, or as parts of runs, in few bytes each.
#[derive(Drop)]
pub enum Listed {
    Zones(Vec<Zone>),
    Runs(RunSet),
}

impl Zones for Listed {
    ghost zones = { λ listed. listed_zones listed };

    fn count(&self) -> usize {
        match self {
            Listed::Zones(zones) => zones.len(),
            Listed::Runs(runs) => runs.len(),
        }
    }

    #[inline(always)]
    fn zone(&self, place: usize) -> Zone {
        match self {
            Listed::Zones(zones) => zones[place],
            Listed::Runs(runs) => runs.zone(place),
        }
    }
}
