// Tests of tre_strips.
use std::alloc::Global;
use std::test::Fail;
use tests_support::{are_lines, set_of};
use tre_strips::strips;

// Zones, and the strips of what they hold.
const STRIPS: [(&[&str], &[&str]); 10] = [
    (&[], &[]),
    (&["[0,3) (0,3] (0,3]"], &["[0,3) (0,3] (0,3]"]),
    // What lasts up to two ticks, or from one to three: all of the above.
    (
        &["[0,3) (0,3] (0,2]", "[0,2] [1,3] [1,3]"],
        &["[0,3) (0,3] (0,3]"],
    ),
    // A chain of single ticks: from each time but the last the ends are other ones.
    (
        &[
            "[0,0] [3,3] [3,3]",
            "[0,1] [2,3] [2,2]",
            "[0,2] [1,3] [1,1]",
            "[0,3] [0,3] [0,0]",
        ],
        &[
            "[0,0] [0,0] [0,0]",
            "[0,0] [1,1] [1,1]",
            "[0,0] [2,2] [2,2]",
            "[0,0] [3,3] [3,3]",
            "(0,1] (0,1] [0,0]",
            "(0,1] (1,2] [1,1]",
            "(0,1] (2,3] [2,2]",
            "(1,2] (1,2] [0,0]",
            "(1,2] (2,3] [1,1]",
            "(2,3] (2,3] [0,0]",
        ],
    ),
    // Up to the time 1 the end of the bar moves, and from there on it stands: both strips take 1.
    // Over 3 the bar of the second is empty.
    (
        &["[0,3) (0,3] (0,2]"],
        &["[0,1] (0,3] (0,2]", "[1,3) (1,3] (0,2]"],
    ),
    // The same over times that are far apart: no tick between them is looked at.
    (
        &["[0,1000000000000) (0,1000000000000] (0,500000000000]"],
        &[
            "[0,500000000000] (0,1000000000000] (0,500000000000]",
            "[500000000000,1000000000000) (500000000000,1000000000000] (0,500000000000]",
        ],
    ),
    // A time by itself.
    (&["[1,1] (1,3) (0,2)"], &["[1,1] (1,3) (0,2)"]),
    // Two bars a strip.
    (
        &["[0,1] [4,4] [3,4]", "[0,1] [2,2] [1,2]"],
        &["[0,1] [2,2] [1,2]", "[0,1] [4,4] [3,4]"],
    ),
    // Bars that touch are one.
    (
        &["[0,2] [2,3] [0,3]", "[0,2] (3,4] (1,4]"],
        &["[0,2] [2,4] [0,4]"],
    ),
    // Of two zones over one begin the one that ends sooner holds what the other does till then.
    (
        &["[0,1) (0,5] (0,5]", "[0,3) (2,5] (0,5]"],
        &[
            "[0,1) (0,5] (0,5]",
            "[1,2] (2,5] (0,4]",
            "[2,3) (2,5] (0,3]",
        ],
    ),
];

// Whether the strips of the zones of these lines are those.
fn has_strips(alloc: Global, zones: &[&str], lines: &[&str]) -> Result<bool, Fail> {
    let set = set_of(alloc, zones)?;
    Ok(are_lines(&strips(alloc, &set)?, lines))
}

#[test]
fn stripped(rt: HostRuntime) -> Result<(), Fail> {
    for (zones, lines) in STRIPS {
        assert!(rt; has_strips(rt.alloc(), zones, lines)?, "{lines:?}");
    }
    Ok(())
}
