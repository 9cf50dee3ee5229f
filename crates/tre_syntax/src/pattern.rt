ghost use Rattle.std.specs.Prelude.{◌≡◌, ◌≤◌, ◌↔◌, length, IsSome, IsTrue, IfSome, IfOk};
ghost use Rattle.tre_syntax.specs.PatternTree.{node_count, IsNumbered};
ghost use Rattle.tre_syntax.specs.Expr.{tree_of};
ghost use Rattle.tre_syntax.specs.declared.name_kind.NameKind.{NameKind};
ghost use Rattle.tre_syntax.specs.declared.pattern.TheConstants.{NODES_MAX};
ghost use Rattle.tre_state.specs.declared.names.TheConstants.{NAMES_MAX};

use crate::boxing::both;
use crate::count::{left_after, seen_after};
use crate::expr::Expr;
use crate::name_kind::NameKind;
use std::alloc::{AllocError, Global};
use tre_state::Names;

/// How many nodes a pattern may have.
pub const NODES_MAX: u64 = 1000;

/// An expression with the names of its propositions and those of its events, each at the place that
/// is its number. A name may stand in both lists: it is then two things.
///
/// A pattern has at most `NODES_MAX` nodes, so whatever goes down its expression goes at most so
/// deep.
#[derive(Drop)]
pub struct Pattern {
    expr: Expr,
    names: Names,
    events: Names,
    ghost small: { node_count (tree_of expr) ≤ NODES_MAX },
    ghost numbered: { IsNumbered NameKind.Proposition (tree_of expr) (length names) },
    ghost events_numbered: { IsNumbered NameKind.Event (tree_of expr) (length events) },
    ghost few: { length names ≤ NAMES_MAX },
    ghost few_events: { length events ≤ NAMES_MAX },
}

impl Pattern {
    ghost use Rattle.tre_syntax.specs.Pattern.{pattern_tree, names_of, IsPattern};

    /// The pattern of an expression, the names of its propositions and those of its events.
    ///
    /// None where the expression has more than `NODES_MAX` nodes, or where the numbers of its
    /// propositions, by their first use from the left, aren't 0, 1 and so on up to the count of
    /// names, or those of its events up to the count of theirs. No more than `NODES_MAX` nodes are
    /// looked at. A refused expression is dropped, which goes as deep as the expression does.
    pub fn new(expr: Expr, names: Names, events: Names) -> Option<Pattern>
        ensures some { IsSome result ↔ ((node_count (tree_of expr) ≤ NODES_MAX)
            × IsNumbered NameKind.Proposition (tree_of expr) (length names)
            × IsNumbered NameKind.Event (tree_of expr) (length events)) }
        ensures tree { IfSome result (λ pattern. pattern_tree pattern ≡ tree_of expr) }
        ensures names { IfSome result (λ pattern.
            names_of pattern ≡ record { names = names; events = events }) }
    {
        if !is_pattern(&expr, names.len(), events.len()) {
            // So it is let go in one way, and not in one for each of its forms.
            drop(expr);
            return None;
        }
        Some(Pattern {
            expr,
            names,
            events,
        })
    }

    /// The expression.
    pub fn expr(&self) -> &Expr
        ensures tree { tree_of result.now ≡ pattern_tree self.now }
        ensures pattern { IsPattern (pattern_tree self.now) (names_of self.now) }
    {
        &self.expr
    }

    /// The names of the propositions.
    pub fn names(&self) -> &Names
        ensures names { result.now ≡ (names_of self.now).names }
        ensures pattern { IsPattern (pattern_tree self.now) (names_of self.now) }
    {
        &self.names
    }

    /// The names of the events.
    pub fn events(&self) -> &Names
        ensures events { result.now ≡ (names_of self.now).events }
        ensures pattern { IsPattern (pattern_tree self.now) (names_of self.now) }
    {
        &self.events
    }

    /// How many nodes the expression has, those of its states among them.
    pub fn nodes(&self) -> u64
        ensures nodes { result ≡ node_count (pattern_tree self.now) }
        ensures limit { result ≤ NODES_MAX }
    {
        match left_after(&self.expr, NODES_MAX) {
            Some(left) => NODES_MAX - left,
            None => unreachable!(),
        }
    }

    /// The same pattern once more.
    pub fn try_clone(&self, alloc: Global) -> Result<Pattern, AllocError>
        ensures tree { IfOk result (λ copy. pattern_tree copy ≡ pattern_tree self.now) }
        ensures names { IfOk result (λ copy. names_of copy ≡ names_of self.now) }
    {
        let names = both(self.names.try_clone(), self.events.try_clone());
        let Ok((expr, (names, events))) = both(self.expr.try_clone(alloc), names) else {
            return Err(AllocError);
        };
        Ok(Pattern {
            expr,
            names,
            events,
        })
    }
}

// Whether the expression has no more nodes than a pattern may have, and its names of either kind
// are so many and numbered by their first use.
fn is_pattern(expr: &Expr, names: usize, events: usize) -> bool
    ensures { IsTrue result ↔ ((node_count (tree_of expr.now) ≤ NODES_MAX)
        × IsNumbered NameKind.Proposition (tree_of expr.now) names
        × IsNumbered NameKind.Event (tree_of expr.now) events) }
{
    left_after(expr, NODES_MAX).is_some() && are_numbered(expr, names, events)
}

// Whether its names of either kind are so many and numbered by their first use.
fn are_numbered(expr: &Expr, names: usize, events: usize) -> bool
    ensures { IsTrue result ↔ (IsNumbered NameKind.Proposition (tree_of expr.now) names
        × IsNumbered NameKind.Event (tree_of expr.now) events) }
{
    is_numbered(NameKind::Proposition, expr, names) && is_numbered(NameKind::Event, expr, events)
}

// Whether the numbers of its names of this kind, by their first use from the left, are 0, 1 and so
// on up to the count.
fn is_numbered(kind: NameKind, expr: &Expr, count: usize) -> bool
    ensures { IsTrue result ↔ IsNumbered kind (tree_of expr.now) count }
{
    match seen_after(kind, expr, 0) {
        Some(seen) => seen == count,
        None => false,
    }
}
