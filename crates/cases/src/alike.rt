// Whether the blocks of a run with `--online` tell just what a run over the whole input finds.

use crate::device::SOUND;
use crate::run::{Given, run};
use crate::text::{text_of, words_of};
use std::alloc::{AllocError, Global};
use tests_support::zone_of;
use tre_zone::Zone;

/// Whether this is so of the first lines of the input, however many, on so many halves of ticks.
pub(crate) fn is_alike(alloc: Global, given: &Given<'_>, halves: u16) -> Result<bool, AllocError> {
    let online = words_of(alloc, "--online", &given.case)?;
    let mut first = Vec::new(alloc);
    for line in text_of(given.input).lines() {
        put_line(&mut first, line)?;
        if !tells_all(alloc, given, &online, &first, halves)? {
            return Ok(false);
        }
    }
    Ok(true)
}

fn put_line(text: &mut Vec<u8>, line: &str) -> Result<(), AllocError> {
    text.extend_from_slice(line.as_bytes())?;
    text.extend_from_slice(b"\n")
}

fn tells_all(
    alloc: Global,
    given: &Given<'_>,
    online: &[String],
    input: &[u8],
    halves: u16,
) -> Result<bool, AllocError> {
    let all = zones_of(alloc, &Given { input, ..*given })?;
    let told = zones_of(
        alloc,
        &Given {
            words: online,
            input,
            ..*given
        },
    )?;
    Ok(match (&all, &told) {
        (Some(all), Some(told)) => are_alike(all, told, u64::from(halves)),
        _ => false,
    })
}

// The zones that a run writes, if it ends well.
fn zones_of(alloc: Global, given: &Given<'_>) -> Result<Option<Vec<Zone>>, AllocError> {
    let ran = run(alloc, given, SOUND)?;
    match ran.code {
        0 => Ok(Some(zones_in(alloc, text_of(ran.out.bytes()))?)),
        _ => Ok(None),
    }
}

fn zones_in(alloc: Global, out: &str) -> Result<Vec<Zone>, AllocError> {
    let mut zones = Vec::new(alloc);
    for line in out.lines() {
        if let Some(zone) = zone_of(line) {
            zones.push(zone)?;
        }
    }
    Ok(zones)
}

fn are_alike(one: &[Zone], other: &[Zone], halves: u64) -> bool {
    for begin in 0..halves {
        for end in 0..halves {
            if hold(one, begin, end) != hold(other, begin, end) {
                return false;
            }
        }
    }
    true
}

fn hold(zones: &[Zone], begin: u64, end: u64) -> bool {
    zones.iter().any(|zone| zone.holds(begin, end, 2))
}
