// Comparisons of whole numbers.
use std::cmp::Ordering;

/// How a number is compared with another.
#[derive(Clone, Copy)]
pub enum Comparison {
    /// `<`
    Less,
    /// `<=`
    AtMost,
    /// `>`
    Greater,
    /// `>=`
    AtLeast,
    /// `==`
    Equal,
    /// `!=`
    Unequal,
}

impl Comparison {
    ghost use Rattle.std.specs.Prelude.{◌≡◌, ℕ, pos};
    ghost use Rattle.std.specs.Ordering.{nat_cmp};
    ghost use Rattle.tre_define.specs.Comparison.{compares};

    /// Whether the number is as it should be beside the other.
    pub fn holds(self, number: i128, other: i128) -> bool
        ensures { result ≡ compares self number other }
    {
        match self {
            Comparison::Less => number < other,
            Comparison::AtMost => number <= other,
            Comparison::Greater => number > other,
            Comparison::AtLeast => number >= other,
            Comparison::Equal => number == other,
            Comparison::Unequal => number != other,
        }
    }

    /// Whether a number is as it should be that stands so beside the other.
    pub fn allows(self, order: Ordering) -> bool
        ensures { (number other : ℕ) → order ≡ nat_cmp number other →
            result ≡ compares self (pos number) (pos other) }
    {
        match self {
            Comparison::Less => order.is_lt(),
            Comparison::AtMost => order.is_le(),
            Comparison::Greater => order.is_gt(),
            Comparison::AtLeast => order.is_ge(),
            Comparison::Equal => order.is_eq(),
            Comparison::Unequal => order.is_ne(),
        }
    }
}
