// Steps in parts of which none touches another: where each of the first steps ends before any of
// the others begins, no chain leads from the ones to the others.
ghost use Rattle.std.specs.Prelude.{ℕ, ◌^◌, ◌<◌, ◌≤◌, ◌<ℤ◌, ◌≤ℤ◌, ◌+ℤ◌, pos, length, drop, slice_range, IsTrue, IfOk};
ghost use Rattle.tre_zone.specs.Bound.{IsKeyWithin};
ghost use Rattle.tre_star.specs.Parts.{LieBefore, AreLastBegins};

use std::alloc::{AllocError, Global};
use tre_zone::Zone;

/// Below the key of each bound on a begin.
const LOWEST: i64 = -(1 << 50);

/// The bounds on the begins of the last step, of the last two, and so on, as keys.
pub(crate) fn last_begins(alloc: Global, steps: &[Zone]) -> Result<Vec<i64>, AllocError>
    ensures { IfOk result (λ begins. AreLastBegins (length steps.now) begins.items steps.now) }
{
    let mut begins = Vec::new(alloc);
    let mut earliest = LOWEST;
    for count in 0..steps.len() {
        let bounds = steps[steps.len() - 1 - count].bounds();
        earliest = greater(earliest, bounds.begin_low.key());
        begins.push(earliest)?;
    }
    Ok(begins)
}

/// Where the part ends that starts at the place: none of the steps behind it begins before all of
/// its own have ended.
pub(crate) fn part_end(steps: &[Zone], begins: &[i64], start: usize) -> usize
    requires begins { AreLastBegins (length steps.now) begins.now steps.now }
    requires start { start < length steps.now }
    ensures rising { start < result }
    ensures within { result ≤ length steps.now }
    ensures apart { LieBefore (slice_range steps.now start result) (drop result steps.now) }
{
    let first = steps[start].bounds();
    let mut reach = first.end_high.key();
    for end in start + 1..steps.len() {
        if is_behind(begins[steps.len() - 1 - end], reach) {
            return end;
        }
        let bounds = steps[end].bounds();
        reach = greater(reach, bounds.end_high.key());
    }
    steps.len()
}

// Whether nothing that begins from the one bound on has begun when all that ends by the other has.
fn is_behind(begin: i64, reach: i64) -> bool
    requires begin { IsKeyWithin (2 ^ 50) begin }
    requires reach { IsKeyWithin (2 ^ 42) reach }
    ensures { IsTrue result → (begin +ℤ reach) <ℤ pos 1 }
{
    begin + reach < 1
}

fn greater(one: i64, other: i64) -> i64
    ensures one { one ≤ℤ result }
    ensures other { other ≤ℤ result }
    ensures within { (limit : ℕ) → IsKeyWithin limit one → IsKeyWithin limit other
        → IsKeyWithin limit result }
{
    if one < other { other } else { one }
}
