use std::alloc::AllocError;
use tre_parse::ParseFault;

/// Why a file gives no checks. Lines are counted from 1. The fault is that of the first line that
/// has one, and for one line the kinds are tried in this order.
#[derive(Clone, Copy, PartialEq, Eq)]
pub enum WatchFault {
    /// The file has more than 1,048,576 bytes.
    TooLarge,
    /// The line is neither blank nor a comment, and says nothing that may stand in such a file, or
    /// has a byte above 127.
    BadLine { line: u64 },
    /// It is the 65th check.
    TooMany { line: u64 },
    /// A check before it has its name, or its definition is one of a name that is defined.
    Twice { line: u64 },
    /// A text of its patterns is none. Offsets are counted from behind the `=`. The fault is never
    /// `ParseFault::Memory`: want of memory is `WatchFault::Memory`.
    Pattern { line: u64, fault: ParseFault },
    /// There is no check in the file, or none with a verdict in one that is to be judged.
    Empty,
    /// There was not enough memory. This may come at any point.
    Memory,
}

impl From<AllocError> for WatchFault {
    ghost use Rattle.std.specs.Prelude.{◌≡◌};
    ghost use Rattle.tre_watch.specs.declared.fault.WatchFault.{WatchFault};

    ghost from_gives = { λ _ fault. fault ≡ WatchFault.Memory };

    fn from(_: AllocError) -> WatchFault {
        WatchFault::Memory
    }
}
