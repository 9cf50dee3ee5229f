// Tests of tre_show.
use std::alloc::{AllocError, Global};
use std::test::Fail;
use tre_show::{LINE_MAX, write_lines, write_time, zone_line};
use tre_zone::Zone;

// Whether the line of the zone, behind another text, is this one.
fn is_behind_text(alloc: Global, zone: &Zone, line: &str) -> Result<bool, AllocError> {
    let mut out = String::from_str(alloc, "at 3\n")?;
    zone_line(zone, 0, &mut out)?;
    Ok(out.as_str().strip_prefix("at 3\n") == Some(line))
}

#[test]
fn a_zone_is_a_line(rt: HostRuntime) -> Result<(), Fail> {
    let zone = Zone::span(0, 3);
    assert!(rt; is_behind_text(rt.alloc(), &zone, "[0,3) (0,3] (0,3]\n")?);
    Ok(())
}

// The lines of a late zone, of an early one behind it, and of the end behind both are these.
fn are_late_and_early(alloc: Global, wanted: &[u8]) -> Result<bool, AllocError> {
    let late = Zone::span(1099511627774, 1099511627776);
    let zones = Vec::from_slice(alloc, &[late, Zone::instants(7, 7)])?;
    let mut buffer = [b'x'; 4 * LINE_MAX];
    let begin = write_time("end ", 1099511627776, 0, &mut buffer, 4 * LINE_MAX);
    let begin = write_lines(&zones, 0, 2, 0, &mut buffer, begin);
    Ok(&buffer[begin..] == wanted)
}

#[test]
fn nothing_of_a_long_line_stays_in_the_next(rt: HostRuntime) -> Result<(), Fail> {
    let want = b"[1099511627774,1099511627776) (1099511627774,1099511627776] (0,2]\n\
        [7,7] [7,7] [0,0]\nend 1099511627776\n";
    assert!(rt; are_late_and_early(rt.alloc(), want)?);
    Ok(())
}
