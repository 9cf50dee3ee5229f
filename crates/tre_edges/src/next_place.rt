ghost use Rattle.std.specs.Prelude.{◌≡◌, ◌≤◌, ◌<◌, ◌↔◌, ◌*◌, ℕ, length};
ghost use Rattle.std.specs.Int.{bit_at};
ghost use Rattle.tre_pairs.specs.declared.TheConstants.{TIME_MAX};
ghost use Rattle.tre_edges.specs.NextPlace.{IsNextPlace, bit_for};

/// How many places one word has bits for.
const WORD_BITS: usize = 64;

/// The first place, from `from` on, whose bit says this truth; `count` where there is none before
/// it. It takes a step a word.
pub(crate) fn next_place(words: &[u64], truth: bool, from: usize, count: usize) -> usize
    requires from { from ≤ count }
    requires bits { count ≤ length words.now * 64 }
    requires limit { count ≤ TIME_MAX }
    ensures { IsNextPlace words.now truth from count result }
{
    let mut at = from;
    while at < count {
        let rest = saying(words[at / WORD_BITS], truth) >> (at % WORD_BITS);
        if rest != 0 {
            return (at + rest.trailing_zeros() as usize).min(count);
        }
        at = (at / WORD_BITS + 1) * WORD_BITS;
    }
    count
}

/// The bits that say this truth.
fn saying(word: u64, truth: bool) -> u64
    ensures { (i : ℕ) → i < 64 → (bit_at result i ≡ 1) ↔ (bit_at word i ≡ bit_for truth) }
{
    if truth { word } else { !word }
}
