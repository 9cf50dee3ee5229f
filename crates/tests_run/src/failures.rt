// Runs over devices of which a call fails.
ghost use Rattle.std.specs.Prelude.{◌<◌};

use crate::memory::{Device, SOUND, Wanted, comes_to, ended, source_of};
use std::alloc::{AllocError, Global};
use std::io::Cursor;
use std::test::Fail;
use tre_io::StdSink;
use tre_tool::Status;

/// How many calls take `len` bytes, at most `most` of them a call.
fn calls_for(len: u64, most: usize) -> u64
    requires { 0 < most }
{
    len.div_ceil(most as u64)
}

/// Whether the run ends as it should where this read fails, if there are so many. Of the calls, one
/// opens, the others read, and the last of them sees the end.
fn read_fails(alloc: Global, most: usize, fails: u64) -> Result<bool, AllocError>
    requires { 0 < most }
{
    let read = Device { most, fails };
    let mut want = Wanted {
        code: 0,
        out: b"[0,3) (0,3] (0,3]\nend 3\n",
        err: b"",
    };
    if fails <= calls_for(6, most).saturating_add(2) {
        want = Wanted {
            code: 6,
            out: b"",
            err: b"montre: read fault\n",
        };
    }
    comes_to(alloc, "3 p q\n", read, SOUND, want)
}

#[test]
fn each_read_fails_in_turn(rt: HostRuntime) -> Result<(), Fail> {
    for most in 1..8 {
        for fails in 1..10 {
            assert!(rt;
                read_fails(rt.alloc(), most, fails)?,
                "call {fails}, {most} bytes a call"
            );
        }
    }
    Ok(())
}

/// Whether the run ends as it should where this write fails, if there are so many: the calls before
/// it have written what they took, and nothing else is there.
fn write_fails(alloc: Global, most: usize, fails: u64) -> Result<bool, AllocError>
    requires { 0 < most }
{
    let write = Device { most, fails };
    let out = b"[0,3) (0,3] (0,3]\nend 3\n".as_slice();
    let mut want = Wanted {
        code: 0,
        out,
        err: b"",
    };
    if fails <= calls_for(24, most) {
        let taken = most.saturating_mul(fails.saturating_sub(1) as usize);
        want = Wanted {
            code: 7,
            out: &out[..taken.min(out.len())],
            err: b"montre: write fault\n",
        };
    }
    comes_to(alloc, "3 p\n", SOUND, write, want)
}

#[test]
fn each_write_fails_in_turn(rt: HostRuntime) -> Result<(), Fail> {
    for most in 1..6 {
        for fails in 1..26 {
            assert!(rt;
                write_fails(rt.alloc(), most, fails)?,
                "call {fails}, {most} bytes a call"
            );
        }
    }
    Ok(())
}

/// How a run ends of which both outputs take some bytes and then none.
fn ended_full(alloc: Global) -> Result<Status, AllocError> {
    let mut input = source_of(alloc, "-", b"3 p\n", SOUND)?;
    let mut out = StdSink::over(Cursor::new([0u8; 8]));
    let mut err = StdSink::over(Cursor::new([0u8; 4]));
    ended(alloc, &mut input, &mut out, &mut err)
}

#[test]
fn outputs_that_take_no_more(rt: HostRuntime) -> Result<(), Fail> {
    assert!(rt; ended_full(rt.alloc())? == Status::WriteFault);
    Ok(())
}
