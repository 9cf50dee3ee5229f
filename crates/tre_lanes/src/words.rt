ghost use Rattle.std.specs.Prelude.{◌≡◌, ◌+◌, ◌<◌, length, map, bit_and, bit_or};
ghost use Rattle.std.specs.Int.{bit_not, w64};
ghost use Rattle.std.specs.Simd.Lanes.{zip2};
ghost use Rattle.tre_lanes.specs.Words.{CombinedBelow};

use std::simd::prelude::*;

/// Sets each word of `a` to `a & b`.
pub fn and_into(a: &mut [u64], b: &[u64])
    requires { length a.old ≡ length b.now }
    ensures { a.new ≡ zip2 bit_and a.old b.now }
{
    combine::<And>(a, b);
}

/// Sets each word of `a` to `a | b`.
pub fn or_into(a: &mut [u64], b: &[u64])
    requires { length a.old ≡ length b.now }
    ensures { a.new ≡ zip2 bit_or a.old b.now }
{
    combine::<Or>(a, b);
}

/// Sets each word of `a` to `!b`.
pub fn not_into(a: &mut [u64], b: &[u64])
    requires { length a.old ≡ length b.now }
    ensures { a.new ≡ map (bit_not w64) b.now }
{
    combine::<Not>(a, b);
}

/// The words that one vector holds.
const LANES: usize = 8;

/// What each word of `a` is set to, by itself and by a word of `b`.
trait Connective {
    ghost use Rattle.std.specs.Prelude.{ℕ};

    ghost of: { ℕ → ℕ → ℕ };

    fn of_words(a: u64, b: u64) -> u64
        ensures { result ≡ of a b };

    fn of_lanes(a: u64x8, b: u64x8) -> u64x8
        ensures { result ≡ zip2 of a b };
}

struct And;

impl Connective for And {
    ghost of = { bit_and };

    fn of_words(a: u64, b: u64) -> u64 {
        a & b
    }

    fn of_lanes(a: u64x8, b: u64x8) -> u64x8 {
        a & b
    }
}

struct Or;

impl Connective for Or {
    ghost of = { bit_or };

    fn of_words(a: u64, b: u64) -> u64 {
        a | b
    }

    fn of_lanes(a: u64x8, b: u64x8) -> u64x8 {
        a | b
    }
}

struct Not;

impl Connective for Not {
    ghost of = { λ a b. bit_not w64 b };

    fn of_words(_a: u64, b: u64) -> u64 {
        !b
    }

    fn of_lanes(_a: u64x8, b: u64x8) -> u64x8 {
        !b
    }
}

/// Sets each word of `a` to what the connective gives for it and the word of `b`.
fn combine<C: Connective>(a: &mut [u64], b: &[u64])
    requires { length a.old ≡ length b.now }
    ensures { a.new ≡ zip2 C.of a.old b.now }
{
    let rest = combine_lanes::<C>(a, b);
    for i in rest..a.len() {
        a[i] = C::of_words(a[i], b[i]);
    }
}

/// `combine`, a vector at a time: up to the place that it answers, after which less than a vector
/// is left.
fn combine_lanes<C: Connective>(a: &mut [u64], b: &[u64]) -> usize
    requires { length a.old ≡ length b.now }
    ensures { CombinedBelow C.of a.old b.now a.new result }
{
    let mut at = 0;
    while at + LANES <= a.len() {
        let lanes = C::of_lanes(u64x8::from_slice(&a[at..]), u64x8::from_slice(&b[at..]));
        lanes.copy_to_slice(&mut a[at..]);
        at += LANES;
    }
    at
}
