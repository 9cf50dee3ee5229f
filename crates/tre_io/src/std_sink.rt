// Standard output and standard error as sinks.
ghost use Rattle.std.specs.Prelude.{◌≡◌, None};

use crate::faults::{Failed, count_fault};
use crate::sink::Sink;
use std::io::{Stderr, Stdout, Write};
use std::marker::Model;

/// Writes to standard output or to standard error, which tell no bytes, or to another writer, and
/// then tells what that one does.
///
/// A write that takes nothing is a fault, so whoever writes all bytes comes to an end.
#[derive(Drop)]
pub struct StdSink<W: Write> {
    writer: W,
    faults: u64,
}

impl<W: Write> Model for StdSink<W> {
    ghost use Rattle.tre_io.specs.SystemOutput.{SystemOutput};

    ghost Value = { SystemOutput };

    ghost view = { λ sink. record { written = W.contents sink.writer; faults = sink.faults } };
}

impl StdSink<Stdout> {
    /// Standard output, as `rt.stdout()` gives it.
    pub fn out(stdout: Stdout) -> StdSink<Stdout>
        ensures { result ≡ record { written = None; faults = 0 } }
    {
        StdSink::over(stdout)
    }
}

impl StdSink<Stderr> {
    /// Standard error, as `rt.stderr()` gives it.
    pub fn err(stderr: Stderr) -> StdSink<Stderr>
        ensures { result ≡ record { written = None; faults = 0 } }
    {
        StdSink::over(stderr)
    }
}

impl<W: Write> StdSink<W> {
    /// Any other writer.
    pub fn over(writer: W) -> StdSink<W>
        ensures { result ≡ record { written = W.contents writer; faults = 0 } }
    {
        StdSink { writer, faults: 0 }
    }
}

impl<W: Write> Sink for StdSink<W> {
    ghost told = { λ sink. record { written = sink.written; faults = sink.faults } };

    fn write(&mut self, bytes: &[u8]) -> Result<usize, Failed> {
        match self.writer.write(bytes) {
            Ok(count) if count > 0 => Ok(count),
            _ => Err(count_fault(&mut self.faults)),
        }
    }
}
