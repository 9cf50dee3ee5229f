//! Timed regular expressions, patterns, and their meaning.
//!
//! The central type is `Pattern`: an expression with the names of its propositions and events, of
//! at most 1,000 nodes. The layers above may rely on the tree that an expression is seen as, on
//! what a pattern always is, and on the meaning: `Matches tree trace a b n` says that the stretch
//! of a trace from a/n to b/n is in the expression. Its laws stand in `laws`, each as the contract
//! of a function. `boxed` and the calls beside it put the parts of a tree into boxes, here and in
//! the layers above.
//!
//! ```text
//! Pattern::new(Expr::Seq(p, q), names, events)     the pattern `p;q`
//! ```
#![tactic(auto)]

pub use boxing::{beside, both, boxed, boxed_result, boxed_results, boxes};
pub use expr::Expr;
pub use name_kind::NameKind;
pub use pattern::{NODES_MAX, Pattern};

mod boxing;
mod count;
pub mod cut;
mod expr;
pub mod laws;
mod name_kind;
mod pattern;
