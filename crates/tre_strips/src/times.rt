// Begins between which no end of a bar overtakes another.
ghost use Rattle.std.specs.Prelude.{◌≡◌, ◌<◌, ◌≤◌, ◌+◌, ◌*◌, ◌^◌, ◌↔◌, cond, IsTrue};
ghost use Rattle.tre_strips.specs.Bar.{place_of};
ghost use Rattle.tre_strips.specs.Times.{Narrows, sample_of, IsSettled, Compares};

use crate::bar::BarEnd;

/// The one time `from` where that is `until` too, and else all times strictly between the two.
#[derive(Clone, Copy)]
pub(crate) struct Times {
    pub(crate) from: u64,
    pub(crate) until: u64,
}

impl Times {
    /// Whether the one end stands before the other. The times are cut to those over which this
    /// stays so.
    pub(crate) fn is_before(&mut self, one: &BarEnd, other: &BarEnd) -> bool
        ensures narrowed { Narrows self.old self.new }
        ensures told { Compares result self.new one.now other.now }
    {
        self.settle(one, other);
        self.stands_before(one, other)
    }

    /// Whether the one end stands before the other over the first of the times, or half a tick
    /// later where they are many.
    #[inline(always)]
    pub(crate) fn stands_before(&self, one: &BarEnd, other: &BarEnd) -> bool
        ensures { IsTrue result ↔ (place_of one.now (sample_of self.now) 2
            < place_of other.now (sample_of self.now) 2) }
    {
        if one.moves == other.moves {
            return is_in_order(one.ticks, part_of(one), other.ticks, part_of(other));
        }
        if one.moves {
            self.is_moving_first(one, other)
        } else {
            self.is_fixed_first(one, other)
        }
    }

    // Whether a moving end stands before a fixed one there. Mostly the time where they meet tells,
    // and no quarters of a tick are looked at.
    #[inline(always)]
    fn is_moving_first(&self, moving: &BarEnd, fixed: &BarEnd) -> bool
        ensures { IsTrue result
            ↔ (4 * moving.now.ticks + (2 * sample_of self.now + cond moving.now.after 1 0)
            < 4 * fixed.now.ticks + cond fixed.now.after 1 0) }
    {
        let meeting = fixed.ticks.saturating_sub(moving.ticks);
        if self.from < meeting {
            return true;
        }
        if meeting < self.from {
            return false;
        }
        if fixed.ticks < moving.ticks {
            return false;
        }
        is_less(part_of(moving) + self.late(), part_of(fixed))
    }

    // Whether a fixed end stands before a moving one there.
    #[inline(always)]
    fn is_fixed_first(&self, fixed: &BarEnd, moving: &BarEnd) -> bool
        ensures { IsTrue result ↔ (4 * fixed.now.ticks + cond fixed.now.after 1 0
            < 4 * moving.now.ticks + (2 * sample_of self.now + cond moving.now.after 1 0)) }
    {
        let meeting = fixed.ticks.saturating_sub(moving.ticks);
        if meeting < self.from {
            return true;
        }
        if self.from < meeting {
            return false;
        }
        if fixed.ticks < moving.ticks {
            return true;
        }
        is_less(part_of(fixed), part_of(moving) + self.late())
    }

    /// Whether the two ends stand alike there.
    #[inline(always)]
    pub(crate) fn stand_together(&self, one: &BarEnd, other: &BarEnd) -> bool
        ensures { IsTrue result ↔ (place_of one.now (sample_of self.now) 2
            ≡ place_of other.now (sample_of self.now) 2) }
    {
        if one.after != other.after {
            return false;
        }
        if one.moves == other.moves {
            return is_same(one.ticks, other.ticks);
        }
        if one.moves {
            self.meet(one, other)
        } else {
            self.meet(other, one)
        }
    }

    // Whether the moments of a moving end and of a fixed one are the same there.
    #[inline(always)]
    #[tactic(auto, unfolding(crate::specs::Times::sample_of))]
    fn meet(&self, moving: &BarEnd, fixed: &BarEnd) -> bool
        ensures { IsTrue result
            ↔ (2 * moving.now.ticks + sample_of self.now ≡ 2 * fixed.now.ticks) }
    {
        if self.from < self.until {
            return false;
        }
        if fixed.ticks < moving.ticks {
            return false;
        }
        is_same(fixed.ticks - moving.ticks, self.from)
    }

    // How many quarters of a tick behind the first of the times the sample stands.
    #[tactic(auto, unfolding(crate::specs::Times::sample_of))]
    fn late(&self) -> u64
        ensures late { 4 * self.now.from + result ≡ 2 * sample_of self.now }
        ensures small { result ≤ 2 }
    {
        if self.from < self.until { 2 } else { 0 }
    }

    /// Cuts the times where a moving end and a fixed one meet.
    pub(crate) fn settle(&mut self, one: &BarEnd, other: &BarEnd)
        ensures narrowed { Narrows self.old self.new }
        ensures settled { IsSettled self.new one.now other.now }
    {
        if one.moves == other.moves {
            return;
        }
        let meeting = if one.moves {
            other.ticks.saturating_sub(one.ticks)
        } else {
            one.ticks.saturating_sub(other.ticks)
        };
        if self.from < meeting {
            self.until = self.until.min(meeting);
        }
    }

    /// Where the end stands over the first of the times, or half a tick later where they are many:
    /// in quarters of a tick.
    pub(crate) fn place(&self, end: &BarEnd) -> u128
        ensures { result ≡ place_of end.now (sample_of self.now) 2 }
    {
        let ticks = 2 * u128::from(end.ticks);
        let moment = if end.moves {
            ticks + self.sample()
        } else {
            ticks
        };
        if end.after {
            2 * moment + 1
        } else {
            2 * moment
        }
    }

    // The first of the times, or half a tick later where they are many, in halves of a tick.
    #[tactic(auto, unfolding(crate::specs::Times::sample_of))]
    fn sample(&self) -> u128
        ensures same { result ≡ sample_of self.now }
        ensures limit { result < 2 ^ 66 }
    {
        let from = 2 * u128::from(self.from);
        if self.from < self.until {
            from + 1
        } else {
            from
        }
    }
}

// How many quarters of a tick behind its moment the end stands.
fn part_of(end: &BarEnd) -> u64
    ensures { result ≡ cond end.now.after 1 0 }
{
    if end.after { 1 } else { 0 }
}

fn is_same(one: u64, other: u64) -> bool
    ensures { IsTrue result ↔ (one ≡ other) }
{
    one == other
}

fn is_less(one: u64, other: u64) -> bool
    ensures { IsTrue result ↔ (one < other) }
{
    one < other
}

// Whether so many ticks and quarters are less than others.
fn is_in_order(ticks: u64, part: u64, others: u64, other_part: u64) -> bool
    requires part { part ≤ 3 }
    requires other { other_part ≤ 3 }
    ensures { IsTrue result ↔ (4 * ticks + part < 4 * others + other_part) }
{
    if ticks == others {
        part < other_part
    } else {
        ticks < others
    }
}
