// Runs over devices whose counts of faults stand at their last value.
ghost use Rattle.std.specs.Prelude.{◌-◌, ◌^◌};

use crate::memory::{Device, FIRST_FAILS, SOUND, ended, sink_of, source_of};
use std::alloc::{AllocError, Global};
use std::test::Fail;
use tre_io::{Failed, MemSink, MemSource, Sink, Source};
use tre_tool::Status;

/// A source or a sink whose count of faults stands at its last value.
#[derive(Drop)]
struct AtLastCount<T> {
    inner: T,
}

impl<S: Source> Source for AtLastCount<S> {
    ghost told = { λ device. record (S.told device.inner) { faults = 2 ^ 64 - 1 } };

    ghost found_told = { λ device. S.found_told device.inner };

    ghost told_together = { λ device. S.told_together device.inner };

    ghost sound_tells = { λ device. S.sound_tells device.inner };

    fn open(&mut self, name: &str) -> Result<(), Failed> {
        self.inner.open(name)
    }

    fn read(&mut self, buffer: &mut [u8]) -> Result<usize, Failed> {
        self.inner.read(buffer)
    }
}

impl<K: Sink> Sink for AtLastCount<K> {
    ghost told = { λ device. record (K.told device.inner) { faults = 2 ^ 64 - 1 } };

    fn write(&mut self, bytes: &[u8]) -> Result<usize, Failed> {
        self.inner.write(bytes)
    }
}

/// Runs `p` over such devices.
fn ended_at_last_count(alloc: Global, read: Device, write: Device) -> Result<Status, AllocError> {
    let mut input = AtLastCount {
        inner: source_of(alloc, "-", b"3 p\n", read)?,
    };
    let mut out = AtLastCount {
        inner: sink_of(alloc, write)?,
    };
    let mut err = AtLastCount {
        inner: sink_of(alloc, SOUND)?,
    };
    ended(alloc, &mut input, &mut out, &mut err)
}

/// Devices of the input and of the output, and how the run ends.
const RUNS: [(Device, Device, Status); 3] = [
    (SOUND, SOUND, Status::Done),
    (FIRST_FAILS, SOUND, Status::ReadFault),
    (SOUND, FIRST_FAILS, Status::WriteFault),
];

#[test]
fn counts_that_stand(rt: HostRuntime) -> Result<(), Fail> {
    for (read, write, status) in &RUNS {
        assert!(rt; ended_at_last_count(rt.alloc(), *read, *write)? == *status);
    }
    Ok(())
}
