// Tests of tre_io, over memory and over the real system.
ghost use Rattle.std.specs.Prelude.{◌≡◌, false, IsTrue, IfOk};

use std::alloc::Global;
use std::io;
use std::test::Fail;
use tre_io::{Failed, FileSource, MemSink, MemSource, Sink, Source, StdSink, put_all};

// A source of the file "trace" with these bytes.
fn trace(alloc: Global, bytes: &[u8], most: usize, fails: &[u64]) -> Result<MemSource, Fail>
    ensures closed { IfOk result (λ source. source.opened ≡ false) }
{
    let name = String::from_str(alloc, "trace")?;
    let most = most.max(1);
    Ok(MemSource::new(name, bytes.to_vec(alloc)?, most, fails.to_vec(alloc)?))
}

// Whether so many bytes are read into the buffer, and they are these.
fn reads(source: &mut MemSource, wanted: &[u8]) -> bool
    requires { IsTrue source.old.opened }
    ensures { IsTrue source.new.opened }
{
    let mut buffer = [0u8; 3];
    match source.read(&mut buffer) {
        Ok(count) => &buffer[..count] == wanted,
        Err(_) => false,
    }
}

// Whether the source, which fails at the first call and at the fourth, does so.
fn fails_twice(source: &mut MemSource) -> Result<bool, Failed>
    requires { source.old.opened ≡ false }
{
    if source.open("trace").is_ok() || source.open("other").is_ok() {
        return Ok(false);
    }
    source.open("trace")?;
    let fails = source.read(&mut [0u8; 3]).is_err();
    Ok(fails && reads(source, b"3 p") && reads(source, b"\n") && reads(source, b""))
}

fn does_fail_twice(alloc: Global) -> Result<bool, Fail> {
    let mut source = trace(alloc, b"3 p\n", 16, &[1, 4])?;
    Ok(fails_twice(&mut source)?)
}

#[test]
fn chosen_calls_fail(rt: HostRuntime) -> Result<(), Fail> {
    assert!(rt; does_fail_twice(rt.alloc())?);
    Ok(())
}

// Whether the third write to the sink, which takes five bytes a call, fails, and later ones don't.
fn fails_third(sink: &mut MemSink) -> bool {
    put_all(sink, b"[0,3) (0,3] (0,3]\n") == Err(Failed)
        && sink.bytes() == b"[0,3) (0,3".as_slice()
        && put_all(sink, b"") == Ok(())
        && put_all(sink, b"] (") == Ok(())
        && sink.bytes() == b"[0,3) (0,3] (".as_slice()
}

fn does_fail_third(alloc: Global) -> Result<bool, Fail> {
    let mut sink = MemSink::new(alloc, 5, [3].to_vec(alloc)?);
    Ok(fails_third(&mut sink))
}

#[test]
fn third_write_fails(rt: HostRuntime) -> Result<(), Fail> {
    assert!(rt; does_fail_third(rt.alloc())?);
    Ok(())
}

// What a first read of a file of the system gives.
fn read_of(rt: &HostRuntime, name: &str) -> Result<usize, Failed> {
    let mut source = FileSource::new(rt);
    source.open(name)?;
    source.read(&mut [0u8; 4])
}

// Names, and what a read gives. A folder is opened as a file is, and can't be read.
const FILES: [(&str, Result<usize, Failed>); 4] = [
    ("no/such/file", Err(Failed)),
    ("/dev/zero", Ok(4)),
    ("/dev/null", Ok(0)),
    ("/", Err(Failed)),
];

#[test]
fn files_of_the_system(rt: HostRuntime) {
    for (name, want) in &FILES {
        assert!(rt; read_of(&rt, *name) == *want, "{name}");
    }
}

// No room: a writer that takes nothing.
fn takes_nothing() -> bool {
    let mut full = StdSink::over(io::Cursor::new([0u8; 0]));
    full.write(b"x") == Err(Failed)
}

#[test]
fn standard_streams(rt: HostRuntime) -> Result<(), Fail> {
    put_all(&mut StdSink::out(rt.stdout()), b"out\n")?;
    put_all(&mut StdSink::err(rt.stderr()), b"err\n")?;
    assert!(rt; takes_nothing());
    Ok(())
}
