//! What Montre prints: the line of a zone, the text of a whole match, and the text of a pattern.
//!
//! [`zone_line`] appends the line of a zone: three ranges that tell exactly the pairs that the zone
//! holds. The text of a whole match is the lines of zones that [`printed_order`] puts in order, or
//! [`in_printed_order`] where they stand, and a line of the end. [`write_line`], [`write_lines`]
//! and [`write_time`] write such lines into a buffer, from its end to its front. They need no
//! memory. Any [`Zones`] can be written so.
//! [`pattern_text`] is the text of a pattern, which spells it. All of them take a scale: as many
//! decimals stand behind the point of each number. The layers above may rely on the definitions of
//! the texts, and on the laws of them that stand in [`laws`]: at each scale one text is that of one
//! list of zones and one end.
//!
//! ```text
//! let zones = printed_order(alloc, &set)?;
//! let begin = write_time("end ", trace.end(), 0, &mut buffer, 1024); // end 3
//! let begin = write_lines(&zones, 0, zones.len(), 0, &mut buffer, begin); // [0,3) (0,3] (0,3]
//! let spelling = pattern_text(alloc, &pattern, 1)?; // (rise(p);p;fall(p)) % [0.2,inf)
//! ```
#![tactic(auto)]

pub use line::{LINE_MAX, write_line, zone_line};
pub use offline::{Zones, write_lines};
pub use order::{are_rising, in_printed_order, printed_order};
pub use pattern::pattern_text;
pub use time::{write_time, write_word};

mod interval;
pub mod laws;
mod line;
mod offline;
mod order;
mod pattern;
mod state;
mod time;
