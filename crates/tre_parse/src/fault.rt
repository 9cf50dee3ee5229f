use std::alloc::AllocError;

/// Why a text gives no pattern. The offsets are counted in bytes from 0. The refusals are tried in
/// this order, each over the whole text before the next.
#[derive(Clone, Copy, Debug, PartialEq, Eq)]
pub enum ParseFault {
    /// The text has more than 16,384 bytes.
    TooLong,
    /// The first byte at which no token begins.
    BadByte { at: u64 },
    /// The first number that is no number of units, or is above the latest time.
    Number { at: u64 },
    /// The first bracket at which 201 are open.
    TooDeep { at: u64 },
    /// The tokens are no expression: those before this one begin one, and with it they don't. At
    /// the end of the text where all of them begin one.
    Syntax { at: u64 },
    /// The opening bracket of the first interval that no duration is in.
    EmptyInterval { at: u64 },
    /// The first use of the 65th name.
    TooManyNames { at: u64 },
    /// The pattern has more than 1,000 nodes. A number above 1,000,000,000 is given as that.
    TooLarge { nodes: u64 },
    /// There was not enough memory. This may come at any point.
    Memory,
}

impl From<AllocError> for ParseFault {
    ghost use Rattle.std.specs.Prelude.{◌≡◌};
    ghost use Rattle.tre_parse.specs.declared.fault.ParseFault.{ParseFault};

    ghost from_gives = { λ _ fault. fault ≡ ParseFault.Memory };

    fn from(_: AllocError) -> ParseFault {
        ParseFault::Memory
    }
}
