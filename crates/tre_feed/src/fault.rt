// What ends the work on an input before its end.
use std::alloc::AllocError;
use tre_io::Failed;
use tre_trace::TraceFault;

/// What ends the work on an input before its end, here or in a layer above: reading it gives none
/// of `TooManyZones` and `Write`.
#[derive(Clone, Copy)]
pub enum Fault {
    /// The first fault of the input.
    Trace(TraceFault),
    /// The input has more bytes than it may have.
    TooLong,
    /// There are more zones than there may be.
    TooManyZones { zones: u64 },
    /// The input couldn't be opened or read.
    Read,
    /// The output couldn't be written.
    Write,
    /// There was no memory.
    Memory,
}

impl From<Failed> for Fault {
    ghost use Rattle.std.specs.Prelude.{◌≡◌};
    ghost use Rattle.tre_feed.specs.declared.fault.Fault.TheVariants.{Read};

    ghost from_gives = { λ _ fault. fault ≡ Read };

    fn from(_: Failed) -> Self {
        Fault::Read
    }
}

impl From<AllocError> for Fault {
    ghost use Rattle.std.specs.Prelude.{◌≡◌};
    ghost use Rattle.tre_feed.specs.declared.fault.Fault.TheVariants.{Memory};

    ghost from_gives = { λ _ fault. fault ≡ Memory };

    fn from(_: AllocError) -> Self {
        Fault::Memory
    }
}
