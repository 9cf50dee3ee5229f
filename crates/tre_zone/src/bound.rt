ghost use Rattle.std.specs.Prelude.{◌≡◌, ℕ, pos, neg_ℤ, ◌+◌, ◌*◌, ◌^◌, ◌+ℤ◌, ◌-ℤ◌, ◌*ℤ◌, ◌≤ℤ◌, ◌<ℤ◌, ◌↔◌, max, IsTrue};
ghost use Rattle.tre_zone.specs.Bound.{value_of, weakness_of, sum_of, Meets, IsKeyWithin};
ghost use Rattle.std.specs.Int.{int_min, int_max};

use std::marker::Model;

/// An upper bound on a difference of two times in ticks: `x <= c` (weak) or `x < c` (strict).
///
/// It is one number, its key: `2c + 1` for a weak bound and `2c` for a strict one. The smaller key
/// is the tighter bound, so bounds are compared by their keys. Contracts see a bound as its key.
#[derive(Clone, Copy, PartialEq, Eq)]
pub struct Bound {
    key: i64,
}

impl Model for Bound {
    ghost use Rattle.std.specs.Prelude.{ℤ};

    ghost Value = { ℤ };

    ghost view = { λ bound. bound.key };

    ghost inverse = { λ key. record { key = key } };
}

impl Bound {
    /// The bound `x <= value`.
    pub fn weak(value: i64) -> Bound
        requires low { neg_ℤ (pos (2 ^ 60)) ≤ℤ value }
        requires high { value ≤ℤ pos (2 ^ 60) }
        ensures key { result ≡ (pos 2 *ℤ value) +ℤ pos 1 }
        ensures value { value_of result ≡ value }
        ensures meaning { (p q n : ℕ)
            → Meets result p q n ↔ (pos p ≤ℤ (pos q +ℤ (value *ℤ pos n))) }
    {
        Bound { key: 2 * value + 1 }
    }

    /// The bound `x < value`.
    pub fn strict(value: i64) -> Bound
        requires low { neg_ℤ (pos (2 ^ 60)) ≤ℤ value }
        requires high { value ≤ℤ pos (2 ^ 60) }
        ensures key { result ≡ pos 2 *ℤ value }
        ensures value { value_of result ≡ value }
        ensures meaning { (p q n : ℕ)
            → Meets result p q n ↔ (pos p <ℤ (pos q +ℤ (value *ℤ pos n))) }
    {
        Bound { key: 2 * value }
    }

    /// The number `c` of `x <= c` or `x < c`.
    pub fn value(&self) -> i64
        ensures { result ≡ value_of self.now }
    {
        self.key >> 1
    }

    /// Whether the bound is `x <= c`, which takes in `c` itself.
    pub fn is_weak(&self) -> bool
        ensures { IsTrue result ↔ (weakness_of self.now ≡ 1) }
    {
        self.weakness() == 1
    }

    /// `2c + 1` for `x <= c`, and `2c` for `x < c`.
    pub fn key(&self) -> i64
        ensures { result ≡ self.now }
    {
        self.key
    }

    /// The bound that this one and `other` put on the sum of what each is on.
    pub fn plus(&self, other: &Bound) -> Bound
        requires own { IsKeyWithin (2 ^ 61) self.now }
        requires others { IsKeyWithin (2 ^ 61) other.now }
        ensures key { result ≡ sum_of self.now other.now }
        ensures value { value_of result ≡ value_of self.now +ℤ value_of other.now }
        ensures weak { (weakness_of result ≡ 1)
            ↔ (weakness_of self.now ≡ 1) × (weakness_of other.now ≡ 1) }
    {
        Bound {
            key: self.key + other.key - self.either_weakness(other),
        }
    }

    /// The tighter of two bounds.
    pub fn tighter(&self, other: &Bound) -> Bound
        ensures { result ≡ int_min self.now other.now }
    {
        Bound {
            key: self.key.min(other.key),
        }
    }

    // The looser of two bounds.
    pub(crate) fn looser(&self, other: &Bound) -> Bound
        ensures { result ≡ int_max self.now other.now }
    {
        Bound {
            key: self.key.max(other.key),
        }
    }

    // The bound on `-x` that is met exactly where this one on `x` isn't.
    pub(crate) fn opposite(&self) -> Bound
        requires { IsKeyWithin (2 ^ 61) self.now }
        ensures { result ≡ pos 1 -ℤ self.now }
    {
        Bound { key: 1 - self.key }
    }

    // Whether some `x` meets this bound while `-x` meets `other`.
    pub(crate) fn leaves_room(&self, other: &Bound) -> bool
        requires own { IsKeyWithin (2 ^ 61) self.now }
        requires others { IsKeyWithin (2 ^ 61) other.now }
        ensures { IsTrue result ↔ (pos 1 ≤ℤ sum_of self.now other.now) }
    {
        self.plus(other).key >= 1
    }

    // Whether every difference that meets `other` meets this bound.
    pub(crate) fn covers(&self, other: &Bound) -> bool
        ensures { IsTrue result ↔ (other.now ≤ℤ self.now) }
    {
        other.key <= self.key
    }

    // 1 where one of the two bounds is weak, and else 0.
    fn either_weakness(&self, other: &Bound) -> i64
        ensures { result ≡ pos (max (weakness_of self.now) (weakness_of other.now)) }
    {
        self.weakness() | other.weakness()
    }

    // 1 for a weak bound and 0 for a strict one.
    fn weakness(&self) -> i64
        ensures { result ≡ pos (weakness_of self.now) }
    {
        self.key & 1
    }
}
