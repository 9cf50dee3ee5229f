// Memory that takes as few bytes at a time as a test wants, with failures where it wants them.
ghost use Rattle.std.specs.Prelude.{◌≡◌, ◌<◌, Some, OnOk, OnErr, IfOk, length, min, take, false};
ghost use Rattle.tre_io.specs.Calls.{is_next_failing};
ghost use Rattle.tre_io.specs.Faults.{HasCause};
ghost use Rattle.tre_io.specs.MemoryOutput.{new_output, after_write, after_failed_output};

use crate::calls::Calls;
use crate::faults::Failed;
use crate::sink::Sink;
use std::alloc::Global;
use std::marker::Model;

/// Keeps what is written in memory, and tells it.
///
/// Its calls are counted from 1, and the count stays at 2^64 - 1 once it is there.
#[derive(Drop)]
pub struct MemSink {
    bytes: Vec<u8>,
    most: usize,
    calls: Calls,
}

impl Model for MemSink {
    ghost use Rattle.std.specs.Prelude.{◌<◌};
    ghost use Rattle.tre_io.specs.MemoryOutput.{MemoryOutput};

    ghost Value = { MemoryOutput };

    ghost view = { λ sink. record {
      written = sink.bytes.items;
      most = sink.most;
      calls = sink.calls;
    } };

    ghost invariant = { λ sink. 0 < sink.most };
}

impl MemSink {
    /// Nothing is written. A write takes at most `most` bytes, and the calls with the numbers in
    /// `fails` fail.
    pub fn new(alloc: Global, most: usize, fails: Vec<u64>) -> MemSink
        requires { 0 < most }
        ensures { result ≡ new_output most fails.items }
    {
        MemSink {
            bytes: Vec::new(alloc),
            most,
            calls: Calls::new(fails),
        }
    }

    /// All that was written.
    pub fn bytes(&self) -> &[u8]
        ensures { result.now ≡ self.now.written }
    {
        &self.bytes
    }
}

impl Sink for MemSink {
    ghost told = { λ sink. record { written = Some sink.written; faults = sink.calls.faults } };

    /// Fails where this call is to fail, and where it finds no memory. Else it takes as many bytes
    /// as `most` allows.
    fn write(&mut self, bytes: &[u8]) -> Result<usize, Failed>
        requires { 0 < length bytes.now }
        ensures some { 0 < self.old.most }
        ensures goes_on { OnOk result (is_next_failing self.old.calls ≡ false) }
        ensures count { IfOk result (λ count. count ≡ min self.old.most (length bytes.now)) }
        ensures ok { IfOk result (λ count. self.new ≡ after_write self.old (take count bytes.now)) }
        ensures err { OnErr result (self.new ≡ after_failed_output self.old) }
        ensures cause { HasCause self.old.calls.faults self.new.calls.faults result }
    {
        self.calls.begin()?;
        let count = self.most.min(bytes.len());
        match self.bytes.extend_from_slice(&bytes[..count]) {
            Ok(()) => Ok(count),
            Err(_) => Err(self.calls.fail()),
        }
    }
}
