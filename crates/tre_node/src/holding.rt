// A literal over a piece: what had begun of it holds on, or ends where the piece begins.
ghost use Rattle.std.specs.Prelude.{◌≡◌, ◌≤◌, ◌^◌, [], ◌∷◌, ◌++◌, ◌≤ℤ◌, All, Some, false, IsTrue, OnOk};
ghost use Rattle.tre_state.specs.State.{tree_of};
ghost use Rattle.tre_state.specs.StateTree.{NumbersBelow};
ghost use Rattle.tre_state.specs.declared.names.TheConstants.{NAMES_MAX};
ghost use Rattle.tre_zone.specs.Bound.{IsKeyWithin};
ghost use Rattle.tre_pairs.specs.Pairs.{Composed};
ghost use Rattle.tre_zone.specs.Held.{Held, IsSetOf};
ghost use Rattle.tre_zone.specs.Longest.{IsLongest};
ghost use Rattle.tre_zone.specs.Zone.{IsOnward};
ghost use Rattle.tre_edges.specs.Piece.{end_of_piece};
ghost use Rattle.tre_pairs.specs.declared.TheConstants.{TIME_MAX};
ghost use Rattle.tre_node.specs.IsNode.{IsStretch};
ghost use Rattle.tre_node.specs.NodeTree.{begun_at, stretch_zone};
ghost use Rattle.tre_node.specs.Telling.{CutsBegun, EndsBegun, HoldsBegun, IsFirstTooOld, IsTooLong, LiteralLooks};

use crate::node::{Around, Stretch};
use crate::vectors::{gather_behind, known};
use std::alloc::AllocError;
use tre_edges::Piece;
use tre_state::State;
use tre_zone::{Bound, Zone, ZoneBounds};

/// The state of a literal is looked at over the piece.
pub fn look_literal(
    around: &mut Around,
    state: &State,
    begun: &mut Vec<Stretch>,
    piece: &Piece,
) -> Result<(), AllocError>
    requires numbers { NumbersBelow NAMES_MAX (tree_of state.now) }
    requires begun { All (IsStretch piece.now.begin) begun.old.items }
    requires limit { IsLongest around.old.longest }
    ensures { OnOk result (LiteralLooks piece.now (tree_of state.now) around.old around.new
        begun.old.items begun.new.items) }
{
    if state.eval(piece.segment.val) {
        hold_on(around, begun, piece)?;
        return Ok(());
    }
    end_begun(around, begun, piece.begin)?;
    Ok(())
}

// What had begun goes on.
fn hold_on(around: &mut Around, begun: &mut Vec<Stretch>, piece: &Piece) -> Result<(), AllocError>
    requires begun { All (IsStretch piece.now.begin) begun.old.items }
    requires limit { IsLongest around.old.longest }
    ensures { OnOk result (HoldsBegun piece.now around.old around.new begun.old.items
        begun.new.items) }
{
    let end = piece.begin + piece.segment.len;
    around.lives = true;
    around.inside.clear();
    around.inside.push(Zone::span(piece.begin, end))?;
    put_onward(&mut around.ended, &mut around.mid, begun, piece)?;
    cut_begun(begun, around.longest, end);
    around.busy = has_begun(begun);
    Ok(())
}

// The pairs that begin in the stretches and end in the piece, in place of what was found.
#[inline(always)]
fn put_onward(
    found: &mut Vec<Zone>,
    aux: &mut Vec<Zone>,
    begun: &[Stretch],
    piece: &Piece,
) -> Result<(), AllocError>
    requires begun { All (IsStretch piece.now.begin) begun.now }
    ensures { OnOk result (IsSetOf found.new.items (Composed (Held (begun_at piece.now.begin begun.now))
        (IsOnward piece.now.begin (end_of_piece piece.now)))) }
{
    if has_begun(begun) {
        return put_some_onward(found, aux, begun, piece);
    }
    found.clear();
    Ok(())
}

fn put_some_onward(
    found: &mut Vec<Zone>,
    aux: &mut Vec<Zone>,
    begun: &[Stretch],
    piece: &Piece,
) -> Result<(), AllocError>
    requires begun { All (IsStretch piece.now.begin) begun.now }
    ensures { OnOk result (IsSetOf found.new.items (Composed (Held (begun_at piece.now.begin begun.now))
        (IsOnward piece.now.begin (end_of_piece piece.now)))) }
{
    found.clear();
    aux.clear();
    put_begun(aux, begun, piece.begin)?;
    known(aux);
    gather_behind(
        found,
        aux,
        &Zone::onward(piece.begin, piece.begin + piece.segment.len),
    )
}

// The first stretches go, while all of their pairs last longer by the time than what counts.
fn cut_begun(begun: &mut Vec<Stretch>, longest: Option<u64>, time: u64)
    requires limit { IsLongest longest }
    requires time { time ≤ TIME_MAX }
    ensures { CutsBegun longest time begun.old.items begun.new.items }
{
    while is_first_too_old(begun, longest, time) {
        begun.remove(0);
    }
}

#[inline(always)]
fn is_first_too_old(begun: &[Stretch], longest: Option<u64>, time: u64) -> bool
    requires limit { IsLongest longest }
    requires time { time ≤ TIME_MAX }
    ensures { IsTrue result → IsFirstTooOld longest time begun.now }
{
    !begun.is_empty() && is_too_old(&begun[0].high, longest, time)
}

// Whether all that begins before the bound lasts longer by the time.
#[inline(always)]
fn is_too_old(high: &Bound, longest: Option<u64>, time: u64) -> bool
    requires limit { IsLongest longest }
    requires time { time ≤ TIME_MAX }
    ensures { IsTrue result → IsTooLong longest time high.now }
{
    match longest {
        Some(longest) => is_too_long(high, longest, time),
        None => false,
    }
}

#[inline(always)]
fn is_too_long(high: &Bound, longest: u64, time: u64) -> bool
    requires { time ≤ TIME_MAX }
    ensures { IsTrue result → IsTooLong (Some longest) time high.now }
{
    if longest < time {
        return is_no_looser(high, &Bound::strict((time - longest) as i64));
    }
    false
}

#[inline(always)]
fn is_no_looser(one: &Bound, other: &Bound) -> bool
    ensures { IsTrue result → one.now ≤ℤ other.now }
{
    one.key() <= other.key()
}

/// Whether something has begun.
#[inline(always)]
pub fn has_begun(begun: &[Stretch]) -> bool
    ensures { result ≡ false → begun.now ≡ [] }
{
    !begun.is_empty()
}

/// All that had begun ends.
pub fn end_begun(around: &mut Around, begun: &mut Vec<Stretch>, time: u64) -> Result<(), AllocError>
    requires limit { time ≤ TIME_MAX }
    requires begun { All (IsStretch time) begun.old.items }
    ensures { OnOk result (EndsBegun time around.old around.new begun.old.items begun.new.items) }
{
    around.lives = false;
    around.busy = false;
    around.inside.clear();
    around.ended.clear();
    if begun.is_empty() {
        return Ok(());
    }
    put_begun(&mut around.ended, begun, time)?;
    begun.clear();
    Ok(())
}

/// Adds the pairs that begin in the stretches and end at the time, a zone for each.
#[inline(always)]
pub fn put_begun(found: &mut Vec<Zone>, begun: &[Stretch], time: u64) -> Result<(), AllocError>
    requires limit { time ≤ TIME_MAX }
    requires begun { All (IsStretch time) begun.now }
    ensures { OnOk result (found.new.items ≡ found.old.items ++ begun_at time begun.now) }
{
    for stretch in begun {
        put_stretch(found, stretch, time)?;
    }
    Ok(())
}

#[inline(always)]
fn put_stretch(found: &mut Vec<Zone>, stretch: &Stretch, time: u64) -> Result<(), AllocError>
    requires limit { time ≤ TIME_MAX }
    requires begun { IsStretch time stretch.now }
    ensures { OnOk result (found.new.items ≡ found.old.items ++ (stretch_zone time stretch.now ∷ [])) }
{
    let bounds = ends_at(stretch, time);
    found.push(Zone::from_canonical(&bounds))?;
    Ok(())
}

#[inline(always)]
fn ends_at(stretch: &Stretch, time: u64) -> ZoneBounds
    requires limit { time ≤ TIME_MAX }
    requires low { IsKeyWithin (2 ^ 42) stretch.now.low }
    requires high { IsKeyWithin (2 ^ 42) stretch.now.high }
    ensures { result ≡ stretch_zone time stretch.now }
{
    let low = Bound::weak(-(time as i64));
    let high = Bound::weak(time as i64);
    ZoneBounds {
        begin_low: stretch.low,
        begin_high: stretch.high,
        end_low: low,
        end_high: high,
        dur_low: stretch.high.plus(&low),
        dur_high: high.plus(&stretch.low),
    }
}
