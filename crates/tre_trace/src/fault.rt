/// Why a trace refused a segment.
#[derive(Clone, Copy, Debug, PartialEq, Eq)]
pub enum PushFault {
    /// The segment lasts no time.
    Zero,
    /// The trace would end at `end`, which is past `TIME_MAX`.
    TooLate { end: u128 },
    Memory,
}

/// What is wrong with the text of a trace, in the order in which it is looked for.
#[derive(Clone, Copy, PartialEq, Eq)]
pub enum TraceKind {
    /// A line or a token has more than 65,536 bytes.
    LineTooLong = 1,
    /// A line isn't a duration and names.
    BadNumber = 2,
    /// A duration is 0.
    Zero = 3,
    /// A time is past `TIME_MAX`.
    TooLate = 4,
    /// A field is no name.
    BadName = 5,
    /// A token stands where it may not.
    BadToken = 6,
    /// A unit of time is asked for, and how long a tick takes isn't declared.
    BadScale = 7,
    /// A name of the pattern isn't declared.
    UnknownName = 8,
    /// A time is no whole number of the units that are asked for.
    TooFine = 9,
    /// A time is before the last one.
    TimeBack = 10,
    /// The input ends too early.
    CutShort = 11,
    /// The reader was refused or finished before.
    Spent = 12,
    Memory = 13,
}

/// The first fault of the text of a trace.
#[derive(Clone, Copy, PartialEq, Eq)]
pub struct TraceFault {
    /// The number of the line, from 1, or the offset of the token, from 0; 0 for `Spent` and
    /// `Memory`.
    pub place: u64,
    pub kind: TraceKind,
}
