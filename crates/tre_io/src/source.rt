// Where bytes come from.
ghost use Rattle.std.specs.Prelude.{◌≡◌, ◌↔◌, ◌<◌, [], false, Some, IsTrue, IsSome, IsOk, OnOk, OnErr, IfOk, IfSome, length};
ghost use Rattle.std.specs.Io.{ReadsAtMost};
ghost use Rattle.std.specs.Io.KnownBytes.{Keeps, ReadConsumes};
ghost use Rattle.tre_io.specs.Faults.{HasCause};
ghost use Rattle.tre_io.specs.Told.{SourceTold};

use crate::faults::Failed;

/// Opens one input, once, by its name, and reads it from front to back.
///
/// The name `-` is standard input. A source may tell its file, and a program over it can then be
/// promised what it does with the bytes; one over the real system tells none.
pub trait Source {
    /// What it tells. The count of its failures never falls, and stops at 2^64 - 1. No call changes
    /// the name, the file, and whether it is sound.
    ghost told: { Self → SourceTold };

    /// Opens the input of this name, and begins at its first byte. After a failure it may be called
    /// again.
    fn open(&mut self, name: &str) -> Result<(), Failed>
        requires closed { (told self.old).opened ≡ false }
        ensures opens { OnOk result (IsTrue (told self.new).opened) }
        ensures by_name { OnOk result (IfSome (told self.old).name (λ is. is ≡ name.now)) }
        ensures bytes { OnOk result (Keeps (told self.old).file (told self.new).left) }
        ensures finds { OnOk result (Keeps (told self.new).found (told self.old).file) }

        // After a failure it stands where it stood.
        ensures opened_before { OnErr result ((told self.new).opened ≡ (told self.old).opened) }
        ensures left_before { OnErr result (Keeps (told self.old).left (told self.new).left) }
        ensures cause { HasCause (told self.old).faults (told self.new).faults result }
        ensures never_fails { IsTrue (told self.old).sound → (told self.old).name ≡ Some name.now →
            IsOk result }

        ensures same_name { (told self.new).name ≡ (told self.old).name }
        ensures same_file { (told self.new).file ≡ (told self.old).file }
        ensures same_sound { (told self.new).sound ≡ (told self.old).sound };

    /// Reads some of the bytes that are left into the front of `buffer`, and says how many.
    ///
    /// `Ok(0)` is the end of the input.
    fn read(&mut self, buffer: &mut [u8]) -> Result<usize, Failed>
        requires opened { IsTrue (told self.old).opened }
        requires room { 0 < length buffer.old }

        ensures within { ReadsAtMost result buffer.new }
        ensures bytes { ReadConsumes (told self.old).left (told self.new).left result buffer.new }
        ensures finds { Keeps (told self.new).found (told self.old).left }
        ensures end { IfOk result (λ count.
            IfSome (told self.old).left (λ left. (count ≡ 0) ↔ (left ≡ []))) }
        ensures cause { HasCause (told self.old).faults (told self.new).faults result }
        ensures never_fails { IsTrue (told self.old).sound → IsOk result }

        ensures same_opened { (told self.new).opened ≡ (told self.old).opened }
        ensures same_name { (told self.new).name ≡ (told self.old).name }
        ensures same_file { (told self.new).file ≡ (told self.old).file }
        ensures same_sound { (told self.new).sound ≡ (told self.old).sound };

    /// What the last read found is told where the file is.
    ghost found_told: { (source : Self) → IsSome (told source).file →
        IsSome (told source).found };

    /// A name is told exactly where its bytes are.
    ghost told_together: { (source : Self) → IsSome (told source).name ↔
        IsSome (told source).file };

    /// Only a source that tells its file is sound.
    ghost sound_tells: { (source : Self) → IsTrue (told source).sound →
        IsSome (told source).file };
}
