// What tests are given, and what they compare.
ghost use Rattle.std.specs.Prelude.{◌<◌};

use std::alloc::Global;
use std::test::Fail;
use tre_parse::parse;
use tre_syntax::Pattern;
use tre_zoneset::ZoneSet;

/// The pattern that the text spells.
pub(crate) fn pattern(alloc: Global, text: &str) -> Result<Pattern, Fail> {
    Ok(parse(alloc, text, 0)?)
}

/// Whether both sets hold the same of the pairs of the first `count` times over `n`.
pub(crate) fn are_same(one: &ZoneSet, other: &ZoneSet, count: u64, n: u32) -> bool
    requires { 0 < n }
{
    for a in 0..count {
        for b in 0..count {
            if one.holds(a, b, n) != other.holds(a, b, n) {
                return false;
            }
        }
    }
    true
}
