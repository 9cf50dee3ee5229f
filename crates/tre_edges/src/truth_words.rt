ghost use Rattle.std.specs.Prelude.{◌≡◌, length, IfOk};
ghost use Rattle.tre_state.specs.State.{tree_of};
ghost use Rattle.tre_state.specs.StateTree.{NumbersBelow};
ghost use Rattle.tre_trace.specs.Planes.{words_for};
ghost use Rattle.tre_edges.specs.StateWords.{AreTruthOf};
ghost use Rattle.tre_edges.specs.WordBits.{AreCleared, AreOpposite, AreOnes};

use std::alloc::{AllocError, Global};
use tre_lanes::{and_into, not_into, or_into};
use tre_packed::AnyTrace;
use tre_state::{NAMES_MAX, State};

/// How many places one word has bits for.
const WORD_BITS: usize = 64;

/// Where the state holds on a trace: bit j % 64 of word j / 64 is its truth on the segment at the
/// place j. It goes as deep as the state does.
pub fn truth<T: AnyTrace>(alloc: Global, state: &State, trace: &T) -> Result<Vec<u64>, AllocError>
    requires { NumbersBelow NAMES_MAX (tree_of state.now) }
    ensures { IfOk result (λ words.
        AreTruthOf (tree_of state.now) (T.timeline trace.now).segments words.items) }
{
    match state {
        State::Yes => always(alloc, trace.count()),
        State::Prop(number) => {
            let plane = Vec::from_slice(alloc, trace.plane(*number))?;
            Ok(plane)
        }
        State::Not(inner) => {
            let words = truth(alloc, inner, trace)?;
            complement(alloc, &words, trace.count())
        }
        State::And(left, right) => {
            let mut words = truth(alloc, left, trace)?;
            let other = truth(alloc, right, trace)?;
            and_into(&mut words, &other);
            Ok(words)
        }
        State::Or(left, right) => {
            let mut words = truth(alloc, left, trace)?;
            let other = truth(alloc, right, trace)?;
            or_into(&mut words, &other);
            Ok(words)
        }
    }
}

/// The bit 1 on each of so many places.
fn always(alloc: Global, count: usize) -> Result<Vec<u64>, AllocError>
    ensures { IfOk result (λ words. AreOnes count words.items) }
{
    let none = vec![in alloc; 0; count.div_ceil(WORD_BITS)]?;
    complement(alloc, &none, count)
}

/// The opposite bit on each of so many places, and 0 past them.
fn complement(alloc: Global, words: &[u64], count: usize) -> Result<Vec<u64>, AllocError>
    requires { length words.now ≡ words_for count }
    ensures { IfOk result (λ opposite. AreOpposite count words.now opposite.items) }
{
    let mut opposite = Vec::from_slice(alloc, words)?;
    not_into(&mut opposite, words);
    clear_past(&mut opposite, count);
    Ok(opposite)
}

/// Sets the bits past so many places to 0, in the last word that has bits for any of them.
fn clear_past(words: &mut [u64], count: usize)
    requires { length words.old ≡ words_for count }
    ensures { AreCleared count words.old words.new }
{
    if count % WORD_BITS != 0 {
        words[count / WORD_BITS] &= (1 << (count % WORD_BITS)) - 1;
    }
}
