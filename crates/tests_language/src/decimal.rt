// Tests of tre_decimal.
use crate::decimal::Spelling::{Decimal, Digits, Numeral};
use std::alloc::{AllocError, Global};
use std::test::Fail;
use tre_decimal::{SCALE_MAX, push_units, read_digits, read_numeral, read_units};

// How a number is spelt.
#[derive(Clone, Copy)]
enum Spelling {
    Numeral,
    Decimal,
    // Digits without a point.
    Digits,
}

// Texts, a scale, and the number of units.
const READ: [(Spelling, &str, u8, Option<u64>); 62] = [
    (Numeral, "0", 0, Some(0)),
    (Numeral, "0071", 0, Some(71)),
    (Numeral, "18446744073709551615", 0, Some(u64::MAX)),
    (Numeral, "99999999999999999999", 0, Some(u64::MAX)),
    (Numeral, "", 0, None),
    (Numeral, "1.5", 0, None),
    (Numeral, "-1", 0, None),
    (Decimal, "0", 0, Some(0)),
    (Decimal, "007", 0, Some(7)),
    (Decimal, "007", 1, Some(70)),
    (Decimal, "007", 9, Some(7_000_000_000)),
    (Decimal, "3.0", 0, Some(3)),
    (Decimal, "3.000", 0, Some(3)),
    (Decimal, "3.0", 1, Some(30)),
    (Decimal, "3.1", 0, None),
    (Decimal, "3.", 0, None),
    (Decimal, "3.", 1, None),
    (Decimal, ".5", 1, None),
    (Decimal, ".", 3, None),
    (Decimal, "0.5", 1, Some(5)),
    (Decimal, "0.50", 1, Some(5)),
    (Decimal, "0.55", 1, None),
    (Decimal, "0.55", 3, Some(550)),
    (Decimal, "000.500", 3, Some(500)),
    (Decimal, "00.0", 1, Some(0)),
    (Decimal, "1.25", 1, None),
    (Decimal, "1.25", 3, Some(1_250)),
    (Decimal, "1.2000", 1, Some(12)),
    (Decimal, "1.20000000000000000000000", 1, Some(12)),
    (Decimal, "1.20000000000000000000001", 1, None),
    (Decimal, "1.2001", 3, None),
    (Decimal, "1.2001", 9, Some(1_200_100_000)),
    (Decimal, "0.000000001", 9, Some(1)),
    (Decimal, "0.0000000010", 9, Some(1)),
    (Decimal, "0.0000000001", 9, None),
    (Decimal, "1099511627776", 0, Some(1_099_511_627_776)),
    (Decimal, "1099511627777", 0, Some(1_099_511_627_777)),
    (Decimal, "109951162777.6", 1, Some(1_099_511_627_776)),
    (Decimal, "109951162777.7", 1, Some(1_099_511_627_777)),
    (Decimal, "1099511627.776", 3, Some(1_099_511_627_776)),
    (Decimal, "1099.511627776", 9, Some(1_099_511_627_776)),
    (Decimal, "1099.511627777", 9, Some(1_099_511_627_777)),
    (Decimal, "18446744073.709551614", 9, Some(u64::MAX - 1)),
    (Decimal, "18446744073.709551615", 9, Some(u64::MAX)),
    (Decimal, "18446744073.709551616", 9, Some(u64::MAX)),
    (Decimal, "99999999999999999999999999.5", 1, Some(u64::MAX)),
    (Decimal, "99999999999999999999999999.05", 1, None),
    (Decimal, "1.5.0", 1, None),
    (Decimal, "1..2", 1, None),
    (Decimal, "1,5", 1, None),
    (Decimal, "-1.5", 1, None),
    (Decimal, "+1.5", 1, None),
    (Decimal, " 1.5", 1, None),
    (Decimal, "", 1, None),
    (Digits, "5", 0, Some(5)),
    (Digits, "5", 3, Some(5_000)),
    (Digits, "18446744073", 9, Some(18_446_744_073_000_000_000)),
    (Digits, "18446744074", 9, Some(u64::MAX)),
    (Digits, "99999999999999999999999999", 9, Some(u64::MAX)),
    (Digits, "5.0", 1, None),
    (Digits, "", 1, None),
    (Digits, "x", 1, None),
];

fn read(spelling: Spelling, text: &str, scale: u8) -> Option<u64> {
    let scale = scale.min(SCALE_MAX);
    match spelling {
        Numeral => read_numeral(text.as_bytes()),
        Decimal => read_units(text.as_bytes(), scale),
        Digits => read_digits(text.as_bytes(), scale),
    }
}

#[test]
fn numbers_are_read(rt: HostRuntime) {
    for (spelling, text, scale, units) in &READ {
        assert!(rt; read(*spelling, *text, *scale) == *units, "{text}");
    }
}

// Numbers of units, a scale, and what is written.
const WRITTEN: [(u64, u8, &str); 14] = [
    (0, 0, "0"),
    (0, 1, "0.0"),
    (0, 9, "0.000000000"),
    (5, 1, "0.5"),
    (5, 3, "0.005"),
    (50, 1, "5.0"),
    (1_200, 2, "12.00"),
    (1_250, 3, "1.250"),
    (10_000, 3, "10.000"),
    (7, 9, "0.000000007"),
    (1_099_511_627_776, 0, "1099511627776"),
    (1_099_511_627_776, 9, "1099.511627776"),
    (u64::MAX, 0, "18446744073709551615"),
    (u64::MAX, 9, "18446744073.709551615"),
];

// Whether a number of units is written so, behind another text.
fn is_written(alloc: Global, units: u64, scale: u8, wanted: &str) -> Result<bool, AllocError> {
    let mut text = String::from_str(alloc, "at ")?;
    push_units(&mut text, units, scale.min(SCALE_MAX))?;
    Ok(text.as_str().strip_prefix("at ") == Some(wanted))
}

#[test]
fn numbers_are_written(rt: HostRuntime) -> Result<(), Fail> {
    for (units, scale, wanted) in &WRITTEN {
        assert!(rt;
            is_written(rt.alloc(), *units, *scale, *wanted)?,
            "{wanted}"
        );
    }
    Ok(())
}
