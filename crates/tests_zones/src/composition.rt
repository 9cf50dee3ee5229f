// Tests of tre_compose.
ghost use Rattle.std.specs.Prelude.{◌<◌};

use crate::support::{holds, is, zone};
use tests_support::zone_of;
use tre_compose::compose;
use tre_zone::Zone;

fn composed(x: &Option<Zone>, y: &Option<Zone>) -> Option<Zone> {
    match x {
        None => None,
        Some(x) => match y {
            None => None,
            Some(y) => compose(x, y),
        },
    }
}

// Two zones, and one after the other, if they meet.
const WORKED: [(&str, &str, Option<&str>); 4] = [
    (
        "[0,1) (0,1] (0,1]",
        "[0,1) (0,1] (0,1]",
        Some("[0,1) (0,1] (0,1]"),
    ),
    (
        "[0,0] [1,1] [1,1]",
        "[1,1] (1,3) (0,2)",
        Some("[0,0] (1,3) (1,3)"),
    ),
    ("[0,0] [1,1] [1,1]", "[2,2] [3,3] [1,1]", None),
    (
        "[0,2) (1,3] (1,2)",
        "[0,2] [1,3] [1,1]",
        Some("[0,1) (2,3] (2,3)"),
    ),
];

#[test]
fn worked(rt: HostRuntime) {
    for (first, second, want) in WORKED {
        let both = composed(&zone_of(first), &zone_of(second));
        assert!(rt; is(&both, want), "{first} and {second}");
    }
}

// Whether some moment over `2n` lies between the two, counted out.
fn has_midpoint(x: &Option<Zone>, y: &Option<Zone>, a: u8, b: u8, n: u8) -> bool
    requires some { 0 < n }
    requires small { n < 64 }
    requires early { a < 64 }
    requires late { b < 64 }
{
    for c in 0..64u8 {
        if holds(x, 2 * a, c, 2 * n) && holds(y, c, 2 * b, 2 * n) {
            return true;
        }
    }
    false
}

// Whether one after the other is just what has a midpoint, over `n`.
fn agree(x: &Option<Zone>, y: &Option<Zone>, n: u8) -> bool
    requires some { 0 < n }
    requires small { n < 64 }
{
    let both = composed(x, y);
    for a in 0..13u8 {
        for b in 0..13u8 {
            if holds(&both, a, b, n) != has_midpoint(x, y, a, b, n) {
                return false;
            }
        }
    }
    true
}

#[test]
fn counted(rt: HostRuntime) {
    let rows = [
        [1, 2, 0, 3, 0, 3],
        [1, 1, -1, 3, -1, 3],
        [-1, 3, -2, 6, 0, 4],
        [1, 4, -2, 7, -2, 4],
        [1, 5, -1, 7, -1, 3],
        [0, 4, -1, 6, 1, 1],
    ];
    for left in &rows {
        for right in &rows {
            for n in 1..5u8 {
                assert!(rt; agree(&zone(left), &zone(right), n));
            }
        }
    }
}
