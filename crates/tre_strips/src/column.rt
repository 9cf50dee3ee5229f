// One pass over time, from column to column.
ghost use Rattle.std.specs.Prelude.{◌≡◌, ◌≤◌, ◌++◌, List, OnOk};
ghost use Rattle.tre_zone.specs.declared.zone_bounds.ZoneBounds.{ZoneBounds};
ghost use Rattle.tre_zone.specs.ZoneList.{SetHolds};

use crate::bar::Bar;
use crate::begins::{close_zones, first_waiting, next_begin};
use crate::profiles::profile;
use crate::times::Times;
use std::alloc::{AllocError, Global};
use tre_pairs::TIME_MAX;
use tre_zone::Zone;

/// The profile at a time, and that behind it: over all times strictly between it and the next.
#[derive(Drop)]
pub(crate) struct Column {
    pub(crate) time: u64,
    pub(crate) there: Vec<Bar>,
    pub(crate) behind: Vec<Bar>,
    pub(crate) until: u64,
}

impl Column {
    /// No column yet: its lists are those that each column is written into.
    pub(crate) fn new(alloc: Global) -> Column {
        Column {
            time: 0,
            there: Vec::new(alloc),
            behind: Vec::new(alloc),
            until: 0,
        }
    }
}

/// Where a pass over zones in the order of their first begins stands: from `time` on pairs begin in
/// the open zones alone, and in those that wait, from the place `waiting` on.
#[derive(Drop)]
pub(crate) struct Sweep {
    pub(crate) time: u64,
    open_zones: Vec<Zone>,
    waiting: usize,
}

impl Sweep {
    ghost use Rattle.tre_strips.specs.Sweep.{BeginInTurn, IsSwept, IsColumn};

    /// The pass before the first column.
    pub(crate) fn new(alloc: Global) -> Sweep
        ensures time { result.time ≡ 0 }
        ensures swept { (zones : List ZoneBounds)
            → IsSwept zones result.open_zones.items result.waiting result.time }
    {
        Sweep {
            time: 0,
            open_zones: Vec::new(alloc),
            waiting: 0,
        }
    }

    /// Writes the column at the time, to whose end the pass moves on.
    pub(crate) fn next_column(
        &mut self,
        alloc: Global,
        zones: &[Zone],
        column: &mut Column,
    ) -> Result<(), AllocError>
        requires turn { BeginInTurn zones.now }
        requires limit { self.old.time ≤ TIME_MAX }
        requires swept { IsSwept zones.now self.old.open_zones.items self.old.waiting
            self.old.time }
        ensures at { OnOk result (column.new.time ≡ self.old.time) }
        ensures until { OnOk result (column.new.until ≡ self.new.time) }
        ensures column { OnOk result (IsColumn (SetHolds zones.now) column.new) }
        ensures swept { OnOk result (
            IsSwept zones.now self.new.open_zones.items self.new.waiting self.new.time) }
    {
        let time = self.time;
        let next = first_waiting(zones, self.waiting, time);
        add_all(&mut self.open_zones, &zones[self.waiting..next])?;
        self.waiting = next;
        let mut here = Times {
            from: time,
            until: time,
        };
        profile(alloc, &self.open_zones, &mut here, &mut column.there)?;
        close_zones(&mut self.open_zones, time);
        let mut times = Times {
            from: time,
            until: next_begin(zones, next, time),
        };
        profile(alloc, &self.open_zones, &mut times, &mut column.behind)?;
        self.time = times.until;
        column.time = time;
        column.until = times.until;
        Ok(())
    }
}

// Adds the zones, of which there are mostly none or one.
fn add_all(all: &mut Vec<Zone>, more: &[Zone]) -> Result<(), AllocError>
    ensures { OnOk result (all.new.items ≡ all.old.items ++ more.now) }
{
    for zone in more {
        all.push(*zone)?;
    }
    Ok(())
}
