//! The language of patterns: from a text to the one pattern that it spells.
//!
//! The central call is `parse`. The grammar stands in specs/Grammar.antt as a relation between
//! tokens and what they spell, apart from the way in which the parser reads them: once, from the
//! left, by one function for each rule. Which tokens a text has is said in specs/Written.antt, by
//! the bytes that write each: at each place it is the longest. The layers above may rely on
//! `IsOutcome`, which says for every text and scale what becomes of it: a text has one
//! outcome, and `parse` answers it or `Memory`. Numbers are decimals that are whole numbers of
//! units, which `units_of` of tre_decimal tells.
//!
//! ```text
//! parse(alloc, "<:p:> % [2,5]", 0)?     rise(p), then p, then fall(p), which lasts 2 to 5 units
//! parse(alloc, "<:p:> % [0.2,0.5]", 1)? the same, of units of a tenth
//! parse(alloc, "p % [3,2]", 0)          Err(ParseFault::EmptyInterval { at: 4 })
//! parse(alloc, "p % [0,0.05]", 1)       Err(ParseFault::Number { at: 7 })
//! ```
#![tactic(auto)]

pub use before::Before;
pub use fault::ParseFault;
pub use limits::TEXT_MAX;
pub use parser::parse;
pub use token::Token;

mod before;
mod connective;
mod counted;
mod cursor;
mod expression;
mod fault;
mod formula;
mod interval;
pub mod laws;
mod lexeme;
mod limits;
mod operand;
mod parser;
mod scan;
pub mod sign;
mod states;
mod token;
