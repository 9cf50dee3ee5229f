// Where bytes go.
ghost use Rattle.std.specs.Prelude.{◌<◌, ◌≤◌, IfOk, length};
ghost use Rattle.std.specs.Io.KnownBytes.{WriteAppends};
ghost use Rattle.tre_io.specs.Faults.{HasCause};
ghost use Rattle.tre_io.specs.Told.{SinkTold};

use crate::faults::Failed;

/// Takes bytes, maybe only some of those that a call offers.
pub trait Sink {
    /// What it tells. The count of its failures never falls, and stops at 2^64 - 1.
    ghost told: { Self → SinkTold };

    /// Takes the first of these bytes, at least one, and says how many.
    fn write(&mut self, bytes: &[u8]) -> Result<usize, Failed>
        requires { 0 < length bytes.now }
        ensures some { IfOk result (λ count. 0 < count) }
        ensures within { IfOk result (λ count. count ≤ length bytes.now) }
        ensures bytes { WriteAppends (told self.old).written (told self.new).written result
            bytes.now }
        ensures cause { HasCause (told self.old).faults (told self.new).faults result };
}
