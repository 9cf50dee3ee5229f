// Tests of tre_zone.
ghost use Rattle.std.specs.Prelude.{◌<◌};

use crate::support::{Keys, holds, is, zone};
use tests_support::{has_line, zone_of};
use tre_zone::{Interval, Zone};

// Bounds that leave every time up to 63.
const FREE: i8 = 127;

#[test]
fn intervals(rt: HostRuntime) {
    assert!(rt; Interval::new(3, true, Some(3), false).is_none());
    assert!(rt; Interval::new(3, true, Some(3), true).is_some());
    assert!(rt; Interval::new(0, true, Some(0), false).is_none());
}

fn has_row(line: &str, row: &[i64; 8]) -> bool {
    match zone_of(line) {
        None => false,
        Some(zone) => zone.row() == *row,
    }
}

#[test]
fn tightened(rt: HostRuntime) {
    // [0,3) (0,3] (0,3]
    assert!(rt; has_row("[0,3] [0,3] (0,3]", &[1, 6, 0, 7, 0, 7, 0, 0]));
}

#[test]
fn cut(rt: HostRuntime) {
    let run = Zone::span(0, 3);
    let lasting = Interval::new(1, false, Some(2), false).and_then(|i| run.within(&i));
    assert!(rt; is(&lasting, Some("[0,2) (1,3] (1,2)")));
    let ending = Zone::span(3, 9).ending_at(4);
    assert!(rt; is(&ending, Some("[3,4) [4,4] (0,1]")));
    assert!(rt; has_line(&Zone::instants(0, 1), "[0,1] [0,1] [0,0]"));
}

#[test]
fn compared(rt: HostRuntime) {
    let (run, early, late) = (Zone::span(0, 3), Zone::span(3, 9), Zone::span(5, 9));
    assert!(rt; early.meet(&late) == Some(late));
    assert!(rt; run.meet(&early).is_none());
    assert!(rt; early.includes(&late));
    assert!(rt; !late.includes(&early));
}

#[test]
fn impossible(rt: HostRuntime) {
    let lines = [
        "[2,1] [0,63] [0,63]",
        "[2,2) [0,63] [0,63]",
        "(2,2] [0,63] [0,63]",
        "[0,0) [0,63] [0,63]",
        "[0,63] [2,1] [0,63]",
        "[0,63] (2,2] [0,63]",
        "[0,63] [0,63] [2,1]",
        "[0,63] [0,63] [2,2)",
        "[2,63] [0,3] [2,63]",
        "[2,63] [0,4] (2,63]",
        "[0,2] [4,63] [0,1]",
        "[0,2] (3,63] [0,1]",
        "(0,63] [0,0] (0,63]",
    ];
    for line in lines {
        assert!(rt; zone_of(line).is_none(), "{line}");
    }
    assert!(rt; zone_of("(0,63] [0,1) (0,63]").is_some());
}

// Whether the difference `p/n - q/n` meets the bound with this key, counted out.
fn meets(key: i8, p: u8, q: u8, n: u8) -> bool {
    let most = i64::from(key >> 1) * i64::from(n);
    let difference = i64::from(p) - i64::from(q);
    difference < most || (difference == most && key & 1 == 1)
}

fn meets_all(keys: &Keys, a: u8, b: u8, n: u8) -> bool {
    a <= b
        && meets(keys[0], 0, a, n)
        && meets(keys[1], a, 0, n)
        && meets(keys[2], 0, b, n)
        && meets(keys[3], b, 0, n)
        && meets(keys[4], a, b, n)
        && meets(keys[5], b, a, n)
}

// Whether the zone holds just the pairs over `n` that meet the keys.
fn agree(zone: &Option<Zone>, keys: &Keys, n: u8) -> bool
    requires { 0 < n }
{
    for a in 0..18u8 {
        for b in 0..18u8 {
            if holds(zone, a, b, n) != meets_all(keys, a, b, n) {
                return false;
            }
        }
    }
    true
}

#[test]
fn counted(rt: HostRuntime) {
    let rows = [
        [1, 7, 1, 7, 0, 7],
        [-2, 4, -3, 7, 0, 3],
        [0, FREE, 1, 2, 0, FREE],
        [1, 3, -5, FREE, -3, 4],
        [-3, FREE, 1, 9, -4, FREE],
    ];
    for row in &rows {
        let zone = zone(row);
        for n in 1..5u8 {
            assert!(rt; agree(&zone, row, n));
        }
    }
}
