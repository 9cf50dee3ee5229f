ghost use Rattle.std.specs.Prelude.{ℕ, ◌↔◌, ◌<◌, ◌≡◌, IfOk, IsTrue};
ghost use Rattle.tre_state.specs.declared.names.TheConstants.{NAMES_MAX};
ghost use Rattle.tre_syntax.specs.Expr.{tree_of};
ghost use Rattle.tre_syntax.specs.PatternTree.{NumbersBelow};
ghost use Rattle.tre_node.specs.IsNode.{IsIdle};
ghost use Rattle.tre_residual.specs.Residual.{nothing, here, joined, preceded, followed, either, both, lasting, marked, residual_tree, IsWellAt, Builds, IsComposition};

use std::alloc::{AllocError, Global};
use tre_node::Node;
use tre_star::compose_sets;
use tre_syntax::{Expr, beside, boxed, boxes};
use tre_zone::Interval;
use tre_zoneset::ZoneSet;

/// Pairs of times, each of which begins up to a time, the present one, and ends at it or later:
/// what comes next in the trace decides.
#[derive(Drop)]
pub enum Residual {
    /// No pair.
    Nil,
    /// The pairs of the set, each of which ends at the present time.
    Here(ZoneSet),
    /// A pair of the set up to the present time, and then a match of what comes next.
    At(ZoneSet, Expr),
    /// A pair of the set, and then one of the residual.
    Pre(ZoneSet, Box<Residual>),
    /// A pair of the residual, and then a match of what comes next.
    Post(Box<Residual>, Expr),
    /// One of the two.
    Or(Box<Residual>, Box<Residual>),
    /// Both, of the same two times.
    Both(Box<Residual>, Box<Residual>),
    /// With its duration in the interval.
    Dur(Box<Residual>, Interval),
    /// What a pattern under way stands for: all of these forms in the shape of an expression.
    Mark(Box<Node>),
}

impl Residual {
    /// The pairs of the set, each of which ends at the present time.
    pub fn here(zones: ZoneSet) -> Residual
        ensures { Builds (residual_tree result) (here zones) }
    {
        if zones.is_empty() {
            return Residual::Nil;
        }
        Residual::Here(zones)
    }

    /// A pair of the set up to the present time, and then a match of the expression.
    pub fn at(zones: ZoneSet, expr: Expr) -> Residual
        ensures { Builds (residual_tree result) (joined zones (tree_of expr)) }
    {
        if zones.is_empty() {
            // `drop` takes any value, so the proof has one case here, as below. It has one for each
            // form of the value where that goes out of scope.
            drop(expr);
            return Residual::Nil;
        }
        Residual::At(zones, expr)
    }

    /// A pair of the set, and then one of the residual. The set goes as far into the residual as it
    /// can, so that what can no longer begin falls away.
    pub fn pre(alloc: Global, zones: ZoneSet, residual: Residual) -> Result<Residual, AllocError>
        ensures { IfOk result (λ whole.
            Builds (residual_tree whole) (preceded zones (residual_tree residual))) }
    {
        if zones.is_empty() {
            drop(residual);
            return Ok(Residual::Nil);
        }
        preceded_by(alloc, &zones, residual)
    }

    /// A pair of the residual, and then a match of the expression.
    pub fn post(alloc: Global, residual: Residual, expr: Expr) -> Result<Residual, AllocError>
        requires numbers { NumbersBelow NAMES_MAX (tree_of expr) }
        ensures builds { IfOk result (λ whole.
            Builds (residual_tree whole) (followed (residual_tree residual) (tree_of expr))) }
        ensures well { IfOk result (λ whole. (time : ℕ)
            → IsWellAt time (residual_tree residual) → IsWellAt time (residual_tree whole)) }
    {
        followed_by(alloc, residual, expr)
    }

    /// A pair of one of the two.
    pub fn or(alloc: Global, one: Residual, other: Residual) -> Result<Residual, AllocError>
        ensures { IfOk result (λ whole.
            Builds (residual_tree whole) (either (residual_tree one) (residual_tree other))) }
    {
        if one.is_nil() {
            drop(one);
            return Ok(other);
        }
        if other.is_nil() {
            drop(other);
            return Ok(one);
        }
        let (one, other) = boxes(alloc, one, other)?;
        Ok(Residual::Or(one, other))
    }

    /// A pair of both.
    pub fn both(alloc: Global, one: Residual, other: Residual) -> Result<Residual, AllocError>
        ensures { IfOk result (λ whole.
            Builds (residual_tree whole) (both (residual_tree one) (residual_tree other))) }
    {
        if one.is_nil() || other.is_nil() {
            drop(one);
            drop(other);
            return Ok(Residual::Nil);
        }
        let (one, other) = boxes(alloc, one, other)?;
        Ok(Residual::Both(one, other))
    }

    /// A pair of the residual with its duration in the interval.
    pub fn dur(
        alloc: Global,
        residual: Residual,
        interval: Interval,
    ) -> Result<Residual, AllocError>
        ensures { IfOk result (λ whole.
            Builds (residual_tree whole) (lasting (residual_tree residual) interval)) }
    {
        if residual.is_nil() {
            return Ok(residual);
        }
        let residual = boxed(alloc, residual)?;
        Ok(Residual::Dur(residual, interval))
    }

    /// What a pattern under way stands for.
    pub fn mark(alloc: Global, node: Node) -> Result<Residual, AllocError>
        ensures { IfOk result (λ whole. Builds (residual_tree whole) (marked node)) }
    {
        if is_idle(&node) {
            drop(node);
            return Ok(Residual::Nil);
        }
        let node = boxed(alloc, node)?;
        Ok(Residual::Mark(node))
    }

    /// Whether it is `Nil`.
    pub fn is_nil(&self) -> bool
        ensures { IsTrue result ↔ (residual_tree self.now ≡ nothing) }
    {
        match self {
            Residual::Nil => true,
            _ => false,
        }
    }
}

// Whether nothing has begun.
fn is_idle(node: &Node) -> bool
    ensures { IsTrue result → IsIdle node.now }
{
    match node {
        Node::Eps(_) | Node::Rise(_, _) | Node::Fall(_, _) | Node::Event(_, _) => true,
        Node::Lit { begun, .. } => begun.is_empty(),
        Node::Seq { left, right, .. } => is_idle(left) && is_idle(right),
        Node::Alt { left, right, .. } => is_idle(left) && is_idle(right),
        Node::Meet { left, right, .. } => is_idle(left) && is_idle(right),
        Node::Star { body, .. } => is_idle(body),
        Node::Within { body, .. } => is_idle(body),
    }
}

// The pairs of a set followed by those of a residual: the set goes into its parts.
fn preceded_by(alloc: Global, zones: &ZoneSet, residual: Residual) -> Result<Residual, AllocError>
    ensures { IfOk result (λ whole.
        Builds (residual_tree whole) (preceded zones.now (residual_tree residual))) }
{
    match residual {
        Residual::Nil => Ok(Residual::Nil),
        Residual::Here(ended) => here_after(alloc, zones, &ended),
        Residual::At(begun, expr) => at_after(alloc, zones, &begun, expr),
        Residual::Pre(first, rest) => pre_after(alloc, zones, &first, rest),
        Residual::Post(first, expr) => {
            let first = preceded_by(alloc, zones, Box::into_inner(first));
            let (first, expr) = beside(first, expr)?;
            followed_by(alloc, first, expr)
        }
        Residual::Or(one, other) => {
            let one = preceded_by(alloc, zones, Box::into_inner(one));
            let (one, other) = beside(one, other)?;
            let other = preceded_by(alloc, zones, Box::into_inner(other));
            let (other, one) = beside(other, one)?;
            Residual::or(alloc, one, other)
        }
        whole => whole_after(alloc, zones, whole),
    }
}

// The pairs of a set followed by those of a residual, as they stand.
fn whole_after(alloc: Global, zones: &ZoneSet, residual: Residual) -> Result<Residual, AllocError>
    ensures { IfOk result (λ whole.
        Builds (residual_tree whole) (preceded zones.now (residual_tree residual))) }
{
    let residual = boxed(alloc, residual)?;
    let zones = zones.try_clone()?;
    Ok(Residual::Pre(zones, residual))
}

// The pairs of a set followed by pairs that are here.
fn here_after(alloc: Global, zones: &ZoneSet, ended: &ZoneSet) -> Result<Residual, AllocError>
    ensures { IfOk result (λ whole.
        Builds (residual_tree whole) (preceded zones.now (here ended.now))) }
{
    let whole = composed(alloc, zones, ended)?;
    Ok(Residual::here(whole))
}

// The pairs of a set followed by pairs that a match of the expression goes on.
fn at_after(
    alloc: Global,
    zones: &ZoneSet,
    begun: &ZoneSet,
    expr: Expr,
) -> Result<Residual, AllocError>
    ensures { IfOk result (λ whole.
        Builds (residual_tree whole) (preceded zones.now (joined begun.now (tree_of expr)))) }
{
    let (whole, expr) = beside(composed(alloc, zones, begun), expr)?;
    Ok(Residual::at(whole, expr))
}

// The pairs of a set followed by those of another, and then by the residual.
fn pre_after(
    alloc: Global,
    zones: &ZoneSet,
    first: &ZoneSet,
    rest: Box<Residual>,
) -> Result<Residual, AllocError>
    ensures { IfOk result (λ whole. Builds (residual_tree whole)
        (preceded zones.now (preceded first.now (residual_tree rest.value)))) }
{
    let whole = composed(alloc, zones, first)?;
    if whole.is_empty() {
        return Ok(Residual::Nil);
    }
    Ok(Residual::Pre(whole, rest))
}

// A pair of the residual, and then a match of the expression, whose names are of no account here.
fn followed_by(alloc: Global, residual: Residual, expr: Expr) -> Result<Residual, AllocError>
    ensures { IfOk result (λ whole.
        Builds (residual_tree whole) (followed (residual_tree residual) (tree_of expr))) }
{
    if residual.is_nil() {
        drop(expr);
        return Ok(residual);
    }
    let (residual, expr) = beside(boxed(alloc, residual), expr)?;
    Ok(Residual::Post(residual, expr))
}

/// The pairs of the first set, each followed by one of the second.
pub fn composed(alloc: Global, first: &ZoneSet, second: &ZoneSet) -> Result<ZoneSet, AllocError>
    ensures { IfOk result (λ zones. IsComposition zones first.now second.now) }
{
    // For the proof: the calls say that both are sets of zones.
    let _first = first.zones();
    let _second = second.zones();
    compose_sets(alloc, first, second)
}
