// Which pairs of times the blocks of a run tell.

use crate::text::text_of;
use tests_support::zone_of;

/// A pair of times in halves of ticks, and the number of a block.
#[derive(Clone, Copy)]
pub(crate) struct Pair {
    block: u64,
    begin: u64,
    end: u64,
}

/// The pair of a text such as `2 0 1.5`. None where it is none.
pub(crate) fn pair_of(text: &str) -> Option<Pair> {
    let (block, times) = text.split_once(' ')?;
    let (begin, end) = times.split_once(' ')?;
    Some(Pair {
        block: block.parse::<u64>().ok()?,
        begin: halves_of(begin)?,
        end: halves_of(end)?,
    })
}

fn halves_of(time: &str) -> Option<u64> {
    let (ticks, half) = match time.strip_suffix(".5") {
        Some(ticks) => (ticks, 1),
        None => (time, 0),
    };
    Some(u64::from(ticks.parse::<u32>().ok()?) * 2 + half)
}

impl Pair {
    /// Whether its block tells it. The first block has the number 1; behind the last one stands
    /// what the end completes.
    pub(crate) fn is_told_by(&self, out: &[u8]) -> bool {
        let mut number = 1u64;
        for line in text_of(out).lines() {
            if line.starts_with("at ") {
                number = number.saturating_add(1);
            } else if number == self.block && self.is_in(line) {
                return true;
            }
        }
        false
    }

    fn is_in(&self, line: &str) -> bool {
        match zone_of(line) {
            Some(zone) => zone.holds(self.begin, self.end, 2),
            None => false,
        }
    }
}
