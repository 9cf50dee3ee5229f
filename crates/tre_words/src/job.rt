ghost use Rattle.std.specs.Prelude.{◌≡◌, IfOk};

use std::alloc::{AllocError, Global};
use std::marker::Model;
use thiserror::Error;
use tre_unit::TimeUnit;

/// The largest number of bytes that an input may be limited to, and of zones that an answer may.
pub const LIMIT_MAX: u64 = 1 << 40;

/// The largest number of bytes that an input may have where the words don't limit it.
pub const LIMIT_DEFAULT: u64 = 1 << 30;

/// How many segments a made trace may have.
pub const COUNT_MAX: u64 = 10_000;

/// What a run does.
#[derive(Drop)]
pub enum Mode {
    /// It tells the matches over the whole input.
    Offline,
    /// It tells the matches as the input comes.
    Online,
    /// It writes the pattern's text, and reads no input.
    Show,
    /// It makes the first `count` segments of a trace, matches a pattern of its own over them both
    /// ways, and writes what it found. It reads no input.
    Generate {
        count: u64,
    },
    /// It tells the matches of each pattern of a file as the input comes.
    Watch {
        /// The name of the file; `-` is standard input.
        file: Word,
    },
    /// It judges each check of a file over the whole input.
    Check {
        /// The name of the file; `-` is standard input.
        file: Word,
    },
}

/// How the input tells a trace.
#[derive(Clone, Copy, PartialEq, Eq)]
pub enum Format {
    /// Lines of a duration and names.
    Text,
    /// A value change dump.
    Vcd,
    /// Records of whole numbers in columns.
    Csv,
}

/// A word of the command line, seen as its bytes.
#[derive(Drop)]
pub struct Word {
    text: String,
}

impl Model for Word {
    ghost use Rattle.std.specs.Prelude.{ℕ, List, string_bytes};

    ghost Value = { List ℕ };

    ghost view = { λ w. string_bytes w.text };
}

impl Word {
    pub(crate) fn new(alloc: Global, text: &str) -> Result<Self, AllocError>
        ensures { IfOk result (λ word. word ≡ text.now) }
    {
        Ok(Word {
            text: String::from_str(alloc, text)?,
        })
    }

    pub fn text(&self) -> &str
        ensures { result.now ≡ self.now }
    {
        self.text.as_str()
    }
}

/// What the words of the command line ask for.
#[derive(Drop)]
pub struct Job {
    pub mode: Mode,
    pub format: Format,
    /// The name of the input; `-` is standard input.
    pub input: Word,
    /// The most bytes that the input may have.
    pub max_bytes: u64,
    /// How many decimals a number has: the unit of time is 10^-`scale` of what is written.
    pub scale: u8,
    /// The unit in which the times of a dump are read, by how long its tick is; where there is
    /// none, in ticks.
    pub unit: Option<TimeUnit>,
    /// Whether the zones of the answer are the one list that its pairs have.
    pub normal: bool,
    /// The most zones that this list may have.
    pub max_zones: Option<u64>,
    /// The text of a pattern whose matches are taken away.
    pub minus: Option<Word>,
    /// The text of the definitions of names, by columns or by the signals of a dump.
    pub lets: Option<Word>,
    /// The pattern's text; empty where the run has patterns of its own or of a file.
    pub expr: Word,
}

/// Why words give no job.
#[derive(Clone, Copy, Debug, PartialEq, Eq, Error)]
pub enum WordsFault {
    #[error("Usage")]
    Usage,
    #[error("Memory")]
    Memory,
}

impl From<AllocError> for WordsFault {
    ghost use Rattle.std.specs.Prelude.{◌≡◌};
    ghost use Rattle.tre_words.specs.declared.job.WordsFault.TheVariants.{Memory};

    ghost from_gives = { λ _ e. e ≡ Memory };

    fn from(_: AllocError) -> Self {
        WordsFault::Memory
    }
}
