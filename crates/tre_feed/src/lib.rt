//! An input that is read piece by piece, for a list of patterns.
//!
//! [`text_input`] and [`dump_input`] make one: it asks for the names of each pattern, in the order
//! of the patterns, of what the bytes say by the format. [`share`] puts the patterns into groups,
//! whose names one reader has room for: a [`Group`] has at most 64 names of propositions and 64 of
//! events, as a pattern has, and the bytes are read once for each group. The [`View`] of a pattern
//! says of each segment that was read for its group what it is for the pattern (`segment_for` of
//! tre_trace); specs/Shares.antt says who shares.
//!
//! What the bytes say is one recording, whoever asks. An [`Input`] has readers of one format, one
//! for each group, and for each who asks a view of a group. Each turn of it ([`Input::next`])
//! reads one piece and feeds it to all readers, up to a limit, or tells all of them the end. What
//! the bytes of the input come to stands in specs/Comes.antt, how it stands in specs/Standing.antt,
//! and how a turn ends in specs/Turn.antt. The layers above rely on this: however a turn ends, just
//! those stretches wait behind the others that the recording has beyond the earlier, and
//! [`Input::column`] gives each of them as it is for the names of each who asks.
//! [`Input::read_traces`] takes all turns and gives the traces. [`read_front`] gives the bytes of a
//! file that is read for its own sake, up to a limit. [`write_bytes`] writes what is told of an
//! input, with the same [`Fault`] for all that may end this work.
//!
//! ```text
//! let mut input = text_input(alloc, &patterns, scale, limit)?;
//! input.open("-", &mut source)?;
//! while input.next(&mut source)? {
//!     input.clear(); // the stretches that waited were taken before
//! }
//! ```
#![tactic(auto)]

mod dump;
mod each;
mod fault;
mod front;
mod group;
mod input;
mod lists;
mod output;
mod piece;
mod places;
mod seen;
mod shares;
mod text;
mod turn;
mod view;

pub use dump::dump_input;
pub use fault::Fault;
pub use front::read_front;
pub use group::Group;
pub use input::Input;
pub use output::{write_bytes, write_text};
pub use shares::{Shares, alone, share};
pub use text::text_input;
pub use view::View;

/// How many bytes one read asks for at the most.
pub const PIECE: usize = 65_536;
