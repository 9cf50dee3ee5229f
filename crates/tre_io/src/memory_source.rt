// A file in memory, read in as small pieces as a test wants, with failures where it wants them.
ghost use Rattle.std.specs.Prelude.{◌≡◌, ◌<◌, ◌↔◌, ◌++◌, Some, IsTrue, IsOk, OnOk, OnErr, IfOk, length, min, take, drop, false, string_bytes, refl};
ghost use Rattle.tre_io.specs.Calls.{is_next_failing};
ghost use Rattle.tre_io.specs.Faults.{HasCause};
ghost use Rattle.tre_io.specs.MemoryInput.{new_input, is_sound, CanOpen, after_open, after_read, after_failed_open, after_failed_read};

use crate::calls::Calls;
use crate::faults::Failed;
use crate::source::Source;
use std::marker::Model;

/// One file in memory, with its name and its bytes. It tells everything.
///
/// Its calls of `open` and `read` are counted together from 1, and the count stays at 2^64 - 1 once
/// it is there.
#[derive(Drop)]
pub struct MemSource {
    name: String,
    bytes: Vec<u8>,
    place: usize,
    last_place: usize,
    opened: bool,
    most: usize,
    calls: Calls,
}

impl Model for MemSource {
    ghost use Rattle.std.specs.Prelude.{◌≤◌, ◌<◌, length, drop, string_bytes};
    ghost use Rattle.tre_io.specs.MemoryInput.{MemoryInput};

    ghost Value = { MemoryInput };

    ghost view = { λ source. record {
      name = string_bytes source.name;
      bytes = source.bytes.items;
      left = drop source.place source.bytes.items;
      found = drop source.last_place source.bytes.items;
      opened = source.opened;
      most = source.most;
      calls = source.calls;
    } };

    ghost invariant = { λ source.
        (source.place ≤ length source.bytes.items) × (0 < source.most) };
}

impl MemSource {
    /// A file of this name with these bytes, not opened. A read gives at most `most` bytes, and the
    /// calls with the numbers in `fails` fail. Without such numbers the source is sound.
    pub fn new(name: String, bytes: Vec<u8>, most: usize, fails: Vec<u64>) -> MemSource
        requires { 0 < most }
        ensures { result ≡ new_input (string_bytes name) bytes.items most fails.items }
    {
        MemSource {
            name,
            bytes,
            place: 0,
            last_place: 0,
            opened: false,
            most,
            calls: Calls::new(fails),
        }
    }
}

impl Source for MemSource {
    ghost told = { λ source. record {
      name = Some source.name;
      file = Some source.bytes;
      left = Some source.left;
      found = Some source.found;
      opened = source.opened;
      sound = is_sound source;
      faults = source.calls.faults;
    } };

    ghost found_told = { λ source told. told };

    ghost told_together = { λ source. (λ _. refl, λ _. refl) };

    ghost sound_tells = { λ source _. refl };

    /// Fails where this call is to fail, and under any name but the file's.
    fn open(&mut self, name: &str) -> Result<(), Failed>
        requires closed { self.old.opened ≡ false }
        ensures answer { IsOk result ↔ CanOpen self.old name.now }
        ensures ok { OnOk result (self.new ≡ after_open self.old) }
        ensures err { OnErr result (self.new ≡ after_failed_open self.old) }
        ensures cause { HasCause self.old.calls.faults self.new.calls.faults result }
    {
        self.calls.begin()?;
        if name != self.name.as_str() {
            return Err(self.calls.fail());
        }
        self.place = 0;
        self.last_place = 0;
        self.opened = true;
        Ok(())
    }

    /// Fails where this call is to fail. Else it gives as many bytes as `most`, the buffer and what
    /// is left allow, and leaves the rest of the buffer alone.
    fn read(&mut self, buffer: &mut [u8]) -> Result<usize, Failed>
        requires opened { IsTrue self.old.opened }
        requires room { 0 < length buffer.old }
        ensures some { 0 < self.old.most }
        ensures answer { IsOk result ↔ (is_next_failing self.old.calls ≡ false) }
        ensures count { IfOk result (λ count.
            count ≡ min self.old.most (min (length buffer.old) (length self.old.left))) }
        ensures bytes { IfOk result (λ count.
            buffer.new ≡ take count self.old.left ++ drop count buffer.old) }
        ensures ok { IfOk result (λ count. self.new ≡ after_read self.old count) }
        ensures err { OnErr result (self.new ≡ after_failed_read self.old) }
        ensures cause { HasCause self.old.calls.faults self.new.calls.faults result }
    {
        self.last_place = self.place;
        self.calls.begin()?;
        let left = &self.bytes[self.place..];
        let count = self.most.min(buffer.len().min(left.len()));
        buffer[..count].copy_from_slice(&left[..count]);
        self.place += count;
        Ok(count)
    }
}
