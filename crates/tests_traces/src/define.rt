// Tests of tre_define: values and parts that no dump has.
use tre_define::Asks::{Compares, Has};
use tre_define::Comparison::{AtLeast, Equal};
use tre_define::{Asks, Part, Test};

// A part, what is asked of it, letters, and whether they pass.
const PASSED: [(Part, Asks, &str, bool); 6] = [
    (Part { low: 0, width: 8 }, Compares(AtLeast, 0), "", false),
    (
        Part {
            low: u64::MAX,
            width: u64::MAX,
        },
        Compares(Equal, 0),
        "1",
        true,
    ),
    (
        Part {
            low: 0,
            width: u64::MAX,
        },
        Compares(Equal, 1),
        "1",
        true,
    ),
    (Part { low: 2, width: 2 }, Has(b'0'), "1", true),
    (Part { low: 0, width: 1 }, Has(b'u'), "U", true),
    (Part { low: 0, width: 1 }, Has(b'x'), "u", false),
];

fn passes(part: Part, asks: Asks, letters: &str) -> bool {
    Test { part, asks }.passes(letters.as_bytes())
}

#[test]
fn values_pass(rt: HostRuntime) {
    for (part, asks, letters, wanted) in &PASSED {
        assert!(rt; passes(*part, *asks, *letters) == *wanted, "{letters}");
    }
}

// A part, the letters of two values, and whether they differ in it.
const DIFFERENT: [(Part, &str, &str, bool); 11] = [
    (Part { low: 0, width: 8 }, "", "x", false),
    (Part { low: 0, width: 8 }, "", "X", false),
    (Part { low: 0, width: 8 }, "", "z", true),
    (Part { low: 0, width: 8 }, "", "0", true),
    (Part { low: 0, width: 8 }, "", "", false),
    (Part { low: 0, width: 0 }, "1", "0", false),
    (Part { low: 9, width: 0 }, "x", "0", false),
    (
        Part {
            low: u64::MAX,
            width: u64::MAX,
        },
        "x",
        "0",
        true,
    ),
    (
        Part {
            low: u64::MAX,
            width: u64::MAX,
        },
        "1",
        "0",
        false,
    ),
    (
        Part {
            low: u64::MAX,
            width: 0,
        },
        "x",
        "0",
        false,
    ),
    (
        Part {
            low: 0,
            width: u64::MAX,
        },
        "101",
        "101",
        false,
    ),
];

// Whether the values differ in the part or not, as this says, one way and the other.
fn differ(part: &Part, one: &str, other: &str, wanted: bool) -> bool {
    let (one, other) = (one.as_bytes(), other.as_bytes());
    part.differs(one, other) == wanted && part.differs(other, one) == wanted
}

#[test]
fn values_differ(rt: HostRuntime) {
    for (part, one, other, wanted) in &DIFFERENT {
        assert!(rt; differ(part, *one, *other, *wanted), "{one} {other}");
    }
}
