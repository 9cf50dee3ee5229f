// Runs: stretches of begins over which one list of bars is the profile.
ghost use Rattle.std.specs.Prelude.{◌≡◌, ◌*◌, ◌<◌, ◌↔◌, List, [], IsTrue, IfOk, OnOk};
ghost use Rattle.tre_zone.specs.ZoneList.{SetHolds, AreCanonical};
ghost use Rattle.tre_zone.specs.declared.zone_bounds.ZoneBounds.{ZoneBounds};
ghost use Rattle.tre_strips.specs.Bar.{place_of, AreFilled};
ghost use Rattle.tre_strips.specs.Spun.{ClosesRun, FindsAlone, Begun, IsSpun};
ghost use Rattle.tre_strips.specs.Sweep.{IsColumn};
ghost use Rattle.tre_strips.specs.Times.{sample_of};
ghost use Rattle.tre_strips.specs.Found.{StandAlike, AreSamePlaces, ProfileGoesOn, Agree, RiseAt};

use crate::bar::Bar;
use crate::column::Column;
use crate::profiles::united;
use crate::strip_zone::{Begins, push_strip};
use crate::times::Times;
use std::alloc::{AllocError, Global};
use std::mem::swap;
use tre_zone::Zone;

/// The run that the pass is in: its bars are the profile from its first time on.
#[derive(Drop)]
pub(crate) struct Run {
    bars: Vec<Bar>,
    from: u64,
    takes_from: bool,
}

impl Run {
    /// The run behind the time of the first column, which it may take the bars of.
    pub(crate) fn first(
        alloc: Global,
        found: &mut Vec<Zone>,
        column: &mut Column,
    ) -> Result<Run, AllocError>
        requires start { column.old.time ≡ 0 }
        requires rise { RiseAt column.old.time column.old.there.items }
        requires none { found.old.items ≡ [] }
        ensures { IfOk result (λ run. (zones : List ZoneBounds) → AreCanonical zones
            → IsColumn (SetHolds zones) column.old
            → IsSpun zones run.bars.items run.from run.takes_from found.new.items
            column.old.until) }
    {
        let mut run = Run {
            bars: Vec::new(alloc),
            from: 0,
            takes_from: false,
        };
        run.begin(alloc, found, column, false)?;
        Ok(run)
    }

    /// Goes on behind the time of the next column, or closes the run, whose strip is found, and
    /// begins another, which may take the bars of the column.
    pub(crate) fn next(
        &mut self,
        alloc: Global,
        found: &mut Vec<Zone>,
        column: &mut Column,
    ) -> Result<(), AllocError>
        requires rising { column.old.time < column.old.until }
        requires rise { RiseAt column.old.time column.old.there.items }
        ensures { OnOk result ((zones : List ZoneBounds) → AreCanonical zones
            → IsColumn (SetHolds zones) column.old
            → IsSpun zones self.old.bars.items self.old.from self.old.takes_from found.old.items
            column.old.time
            → IsSpun zones self.new.bars.items self.new.from self.new.takes_from found.new.items
            column.old.until) }
    {
        if self.goes_on(column) {
            return Ok(());
        }
        let taken = self.close(alloc, found, column)?;
        self.begin(alloc, found, column, taken)?;
        Ok(())
    }

    // The run behind the time of the column, in place of one that was closed. Where neither takes
    // the time, that is a strip by itself.
    fn begin(
        &mut self,
        alloc: Global,
        found: &mut Vec<Zone>,
        column: &mut Column,
        taken: bool,
    ) -> Result<(), AllocError>
        requires { RiseAt column.old.time column.old.there.items }
        ensures bars { OnOk result (self.new.bars.items ≡ column.old.behind.items) }
        ensures from { OnOk result (self.new.from ≡ column.old.time) }
        ensures begun { OnOk result (
            Begun column.old.there.items column.old.behind.items column.old.time taken
            self.new.takes_from found.old.items found.new.items) }
    {
        let fits = fit(alloc, column.time, &column.behind, &column.there)?;
        push_alone(found, column, taken, fits)?;
        swap(&mut self.bars, &mut column.behind);
        self.from = column.time;
        self.takes_from = fits;
        Ok(())
    }

    // Whether the bars are the profile at the time of the column and behind it too.
    fn goes_on(&self, column: &Column) -> bool
        requires { column.now.time < column.now.until }
        ensures { IsTrue result
            ↔ ProfileGoesOn self.now.bars.items column.now.there.items column.now.behind.items
            column.now.time }
    {
        let behind = Times {
            from: column.time,
            until: column.until,
        };
        are_alike(&behind, &self.bars, &column.behind)
            && are_same_at(column.time, &self.bars, &column.there)
    }

    // Finds the strip of the run, which ends at the time of the column, and says whether it takes
    // that time.
    fn close(
        &self,
        alloc: Global,
        found: &mut Vec<Zone>,
        column: &Column,
    ) -> Result<bool, AllocError>
        requires { RiseAt column.now.time column.now.there.items }
        ensures { IfOk result (λ taken.
            ClosesRun self.now.bars.items column.now.there.items self.now.from column.now.time
            self.now.takes_from taken found.old.items found.new.items) }
    {
        let fits = fit(alloc, column.time, &self.bars, &column.there)?;
        let begins = Begins {
            from: self.from,
            takes_from: self.takes_from,
            until: column.time,
            takes_until: fits,
        };
        push_strip(found, &begins, &self.bars)?;
        Ok(fits)
    }
}

// Finds the strip of the time of the column, where no run takes it.
fn push_alone(
    found: &mut Vec<Zone>,
    column: &Column,
    taken: bool,
    fits: bool,
) -> Result<(), AllocError>
    ensures { OnOk result (FindsAlone column.now.there.items column.now.time taken fits
        found.old.items found.new.items) }
{
    if taken {
        return Ok(());
    }
    if fits {
        return Ok(());
    }
    let alone = Begins {
        from: column.time,
        takes_from: true,
        until: column.time,
        takes_until: true,
    };
    push_strip(found, &alone, &column.there)
}

// Whether over the time none of the bars is empty, and together they are what the profile there is.
#[inline(always)]
fn fit(alloc: Global, time: u64, bars: &[Bar], there: &[Bar]) -> Result<bool, AllocError>
    requires { RiseAt time there.now }
    ensures { IfOk result (λ fits. IsTrue fits ↔ Agree time bars.now there.now) }
{
    // Mostly this tells it, since what rises is not empty, and one bar has nothing to be joined to.
    if are_same_at(time, bars, there) {
        return Ok(true);
    }
    if bars.len() < 2 {
        return Ok(false);
    }
    fit_when_united(alloc, time, bars, there)
}

// The same, told by their union.
fn fit_when_united(
    alloc: Global,
    time: u64,
    bars: &[Bar],
    there: &[Bar],
) -> Result<bool, AllocError>
    requires { RiseAt time there.now }
    ensures { IfOk result (λ fits. IsTrue fits ↔ Agree time bars.now there.now) }
{
    if !are_filled(time, bars) {
        return Ok(false);
    }
    let mut times = Times {
        from: time,
        until: time,
    };
    let all = Vec::from_slice(alloc, bars)?;
    let united = united(alloc, all, &mut times)?;
    Ok(are_same_at(time, &united, there))
}

// Whether none of the bars is empty over the time.
fn are_filled(time: u64, bars: &[Bar]) -> bool
    ensures { IsTrue result ↔ AreFilled bars.now (2 * time) 2 }
{
    for bar in bars {
        if !is_filled(time, bar) {
            return false;
        }
    }
    true
}

fn is_filled(time: u64, bar: &Bar) -> bool
    ensures { IsTrue result
        ↔ (place_of bar.now.low (2 * time) 2 < place_of bar.now.high (2 * time) 2) }
{
    let times = Times {
        from: time,
        until: time,
    };
    times.stands_before(&bar.low, &bar.high)
}

// Whether the bars stand where the others do, one by one, over the time.
#[inline(always)]
fn are_same_at(time: u64, bars: &[Bar], others: &[Bar]) -> bool
    ensures { IsTrue result ↔ AreSamePlaces bars.now others.now (2 * time) 2 }
{
    let times = Times {
        from: time,
        until: time,
    };
    are_alike(&times, bars, others)
}

// Whether the bars stand where the others do, one by one, over one of the times.
#[inline(always)]
fn are_alike(times: &Times, bars: &[Bar], others: &[Bar]) -> bool
    ensures { IsTrue result ↔ AreSamePlaces bars.now others.now (sample_of times.now) 2 }
{
    if bars.len() != others.len() {
        return false;
    }
    for place in 0..bars.len() {
        if !stand_alike(times, &bars[place], &others[place]) {
            return false;
        }
    }
    true
}

fn stand_alike(times: &Times, bar: &Bar, other: &Bar) -> bool
    ensures { IsTrue result ↔ StandAlike (sample_of times.now) 2 bar.now other.now }
{
    times.stand_together(&bar.low, &other.low) && times.stand_together(&bar.high, &other.high)
}
