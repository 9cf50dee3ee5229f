// The atoms over one piece of a trace.
ghost use Rattle.std.specs.Prelude.{◌+◌, ◌≤◌, ◌↔◌, ◌&&◌, not, IsTrue};
ghost use Rattle.tre_pairs.specs.declared.TheConstants.{TIME_MAX};
ghost use Rattle.tre_state.specs.State.{tree_of};
ghost use Rattle.tre_state.specs.StateTree.{NumbersBelow};
ghost use Rattle.tre_syntax.specs.PatternTree.{empty, literal, rise, fall};
ghost use Rattle.tre_syntax.specs.Rest.{AtomMatches};
ghost use Rattle.tre_zone.specs.Zone.{IsZoneOf, GivesZone};
ghost use Rattle.tre_edges.specs.Piece.{rest_of_piece};
ghost use Rattle.tre_edges.specs.Truth.{HasTruth, ComesTo, IsFoundAt};

use crate::piece::Piece;
use tre_state::{NAMES_MAX, State};
use tre_zone::Zone;

/// Every moment of the piece, its begin and its end among them, as one zone: the matches of `eps`.
pub fn moments_in(piece: &Piece) -> Zone
    ensures { IsZoneOf result (AtomMatches (rest_of_piece piece.now) empty) }
{
    Zone::instants(piece.begin, piece.begin + piece.segment.len)
}

/// The stretches of the piece on which the state holds, `begin <= t < t' <= begin + len` as one
/// zone. None exactly where the state is false on the segment.
pub fn literal_in(state: &State, piece: &Piece) -> Option<Zone>
    requires { NumbersBelow NAMES_MAX (tree_of state.now) }
    ensures { GivesZone result
        (AtomMatches (rest_of_piece piece.now) (literal (tree_of state.now))) }
{
    if !state.eval(piece.segment.val) {
        return None;
    }
    Some(Zone::span(piece.begin, piece.begin + piece.segment.len))
}

/// The begin of the piece, where the state becomes true there. What follows the piece isn't known,
/// so there is no edge at its end.
pub fn rise_in(state: &State, piece: &Piece) -> Option<Zone>
    requires { NumbersBelow NAMES_MAX (tree_of state.now) }
    ensures { GivesZone result (AtomMatches (rest_of_piece piece.now) (rise (tree_of state.now))) }
{
    change_in(state, piece, true)
}

/// The begin of the piece, where the state becomes false there.
pub fn fall_in(state: &State, piece: &Piece) -> Option<Zone>
    requires { NumbersBelow NAMES_MAX (tree_of state.now) }
    ensures { GivesZone result (AtomMatches (rest_of_piece piece.now) (fall (tree_of state.now))) }
{
    change_in(state, piece, false)
}

// The begin of the piece, where the state comes to this truth there.
fn change_in(state: &State, piece: &Piece, truth: bool) -> Option<Zone>
    requires { NumbersBelow NAMES_MAX (tree_of state.now) }
    ensures { GivesZone result (ComesTo truth (tree_of state.now) (rest_of_piece piece.now)) }
{
    match piece.before {
        None => None,
        Some(before) => {
            let other_before = !has_truth(state, before, truth);
            let is = has_truth(state, piece.segment.val, truth);
            turn_at(piece.begin, other_before, is)
        }
    }
}

// The instant, where both tests hold.
fn turn_at(instant: u64, other_before: bool, is: bool) -> Option<Zone>
    requires { instant ≤ TIME_MAX }
    ensures { GivesZone result (IsFoundAt (other_before && is) instant) }
{
    if other_before && is {
        return Some(Zone::instants(instant, instant));
    }
    None
}

// Whether the state has this truth on the valuation.
fn has_truth(state: &State, valuation: u64, truth: bool) -> bool
    requires { NumbersBelow NAMES_MAX (tree_of state.now) }
    ensures is { IsTrue result ↔ HasTruth truth (tree_of state.now) valuation }
    ensures other { IsTrue (not result) ↔ HasTruth (not truth) (tree_of state.now) valuation }
{
    state.eval(valuation) == truth
}
