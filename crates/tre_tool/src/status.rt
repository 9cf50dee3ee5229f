ghost use Rattle.std.specs.Prelude.{◌≡◌};

use std::alloc::AllocError;
use tre_define::LetFault;
use tre_feed::Fault;
use tre_parse::ParseFault;
use tre_trace::TraceFault;
use tre_watch::WatchFault;
use tre_words::WordsFault;

/// How a run ended.
#[derive(Clone, Copy, PartialEq, Eq)]
pub enum Status {
    /// The answer was written: the zones of all matches, the pattern's text, or a summary.
    Done,
    /// The words give no job.
    Usage,
    /// The pattern was refused.
    Expression(ParseFault),
    /// The pattern that is taken away was refused.
    Minus(ParseFault),
    /// The definitions were refused.
    Definitions(LetFault),
    /// The file of checks was refused.
    Watch(WatchFault),
    /// The first fault of the input.
    Trace(TraceFault),
    /// The input has more bytes than it may have.
    InputTooLong,
    /// There are so many zones, which are more than there may be.
    TooManyZones { zones: u64 },
    /// The file of checks, or the input, couldn't be opened or read.
    ReadFault,
    /// The output couldn't be written.
    WriteFault,
    /// The answer was written, and so many checks fail.
    Failed { checks: u64 },
    /// There was no memory.
    Memory,
}

impl Status {
    ghost use Rattle.tre_tool.specs.Status.{code_of};

    /// The program's exit status.
    pub fn code(&self) -> u8
        ensures { result ≡ code_of self.now }
    {
        match self {
            Status::Done => 0,
            Status::Usage => 2,
            Status::Expression(_) => 3,
            Status::Trace(_) => 4,
            Status::InputTooLong => 5,
            Status::ReadFault => 6,
            Status::WriteFault => 7,
            Status::Memory => 8,
            Status::TooManyZones { .. } => 9,
            Status::Minus(_) => 10,
            Status::Definitions(_) => 11,
            Status::Watch(_) => 12,
            Status::Failed { .. } => 13,
        }
    }
}

impl From<AllocError> for Status {
    ghost use Rattle.std.specs.Prelude.{◌≡◌};
    ghost use Rattle.tre_tool.specs.declared.status.Status.TheVariants.{Memory};

    ghost from_gives = { λ _ status. status ≡ Memory };

    fn from(_: AllocError) -> Self {
        Status::Memory
    }
}

impl From<WordsFault> for Status {
    ghost use Rattle.std.specs.Prelude.{◌≡◌};
    ghost use Rattle.tre_tool.specs.Status.{words_status};

    ghost from_gives = { λ fault status. status ≡ words_status fault };

    fn from(fault: WordsFault) -> Self {
        match fault {
            WordsFault::Usage => Status::Usage,
            WordsFault::Memory => Status::Memory,
        }
    }
}

impl From<ParseFault> for Status {
    ghost use Rattle.std.specs.Prelude.{◌≡◌};
    ghost use Rattle.tre_tool.specs.Status.{parse_status};

    ghost from_gives = { λ fault status. status ≡ parse_status fault };

    fn from(fault: ParseFault) -> Self {
        match fault {
            ParseFault::Memory => Status::Memory,
            _ => Status::Expression(fault),
        }
    }
}

impl From<LetFault> for Status {
    ghost use Rattle.std.specs.Prelude.{◌≡◌};
    ghost use Rattle.tre_tool.specs.Status.{let_status};

    ghost from_gives = { λ fault status. status ≡ let_status fault };

    fn from(fault: LetFault) -> Self {
        match fault {
            LetFault::Memory => Status::Memory,
            _ => Status::Definitions(fault),
        }
    }
}

impl From<WatchFault> for Status {
    ghost use Rattle.std.specs.Prelude.{◌≡◌};
    ghost use Rattle.tre_tool.specs.Status.{watch_status};

    ghost from_gives = { λ fault status. status ≡ watch_status fault };

    fn from(fault: WatchFault) -> Self {
        match fault {
            WatchFault::Memory => Status::Memory,
            _ => Status::Watch(fault),
        }
    }
}

/// An input, or a file, that couldn't be answered.
impl From<Fault> for Status {
    ghost use Rattle.std.specs.Prelude.{◌≡◌};
    ghost use Rattle.tre_tool.specs.Status.{fault_status};

    ghost from_gives = { λ fault status. status ≡ fault_status fault };

    fn from(fault: Fault) -> Self {
        match fault {
            Fault::Trace(fault) => Status::Trace(fault),
            Fault::TooLong => Status::InputTooLong,
            Fault::TooManyZones { zones } => Status::TooManyZones { zones },
            Fault::Read => Status::ReadFault,
            Fault::Write => Status::WriteFault,
            Fault::Memory => Status::Memory,
        }
    }
}
