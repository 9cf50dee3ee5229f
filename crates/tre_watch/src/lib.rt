//! Files of named patterns: those that are to be watched at once, and those that are to be judged.
//!
//! Each line of such a file is blank, a comment, a definition or a check. [`read_plan`] reads the
//! bytes of a file that is to be watched, in which each check is a name, `=` and a pattern;
//! [`read_checks`] one that is to be judged, in which checks of all [`Form`]s stand, and one that
//! has a verdict at least. The layers above may rely on `IsOutcome` (specs/Outcome.antt), which
//! says for every file of both kinds and every scale what becomes of it: it has one outcome, and
//! that is answered, or `Memory`.
//!
//! ```text
//! # of the bus
//! let busy = tb.state == 3
//! slow = <:req:> ; (!ack % [10,20])
//! never both = {req && ack}
//! each served = rise(req) |-> (!ack ; rise(ack)) % [0,20]
//! ```
#![tactic(auto)]

pub use checks::{Checks, Meanings};
pub use fault::WatchFault;
pub use form::Form;
pub use reader::{FILE_MAX, read_checks, read_plan};

mod add;
mod checks;
mod fault;
mod form;
pub mod laws;
mod line;
mod reader;
