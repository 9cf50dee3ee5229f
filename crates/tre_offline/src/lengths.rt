// How long matches last: what one side of an intersection says of the other.
ghost use Rattle.std.specs.Prelude.{◌≡◌, ◌≤◌, ℕ, Some, IsTrue};
ghost use Rattle.tre_pairs.specs.Pairs.{Lasting};
ghost use Rattle.tre_pairs.specs.declared.TheConstants.{TIME_MAX};
ghost use Rattle.tre_syntax.specs.Expr.{tree_of};
ghost use Rattle.tre_syntax.specs.Meaning.{MatchesRest};
ghost use Rattle.tre_syntax.specs.PatternTree.{PatternTree};
ghost use Rattle.tre_syntax.specs.Rest.{Rest};
ghost use Rattle.tre_zone.specs.Longest.{LastsUpTo, AllLastUpTo, IsLongest};
ghost use Rattle.tre_zone.specs.ZoneList.{HoldExactly};
ghost use Rattle.tre_offline.specs.Lengths.{LastUpTo, IsRepetition};

use tre_pairs::TIME_MAX;
use tre_syntax::Expr;
use tre_zone::Zone;
use tre_zoneset::ZoneSet;

/// Which of the two sides of an intersection to look for first: the matches of the first are short
/// by its form, or its form is the smaller. What is found depends on it in no way.
pub(crate) fn goes_first(one: &Expr, other: &Expr) -> bool {
    most_of(one) < most_of(other)
}

// How long a match of the expression may be, by its form: more than any where there is no limit.
fn most_of(expr: &Expr) -> u64 {
    match expr {
        Expr::Eps | Expr::Rise(_) | Expr::Fall(_) | Expr::Event(_) => 0,
        Expr::Lit(_) => TIME_MAX,
        Expr::Seq(left, right) => most_of(left)
            .saturating_add(most_of(right))
            .saturating_add(1),
        Expr::Alt(left, right) => most_of(left).max(most_of(right)),
        Expr::Meet(left, right) => most_of(left).min(most_of(right)),
        Expr::Star(_) => u64::MAX,
        Expr::Within(all, interval) => match interval.high() {
            None => most_of(all),
            Some(high) => most_of(all).min(high),
        },
    }
}

/// How long the matches of the other side have to last at most, to be matches of an intersection
/// with those of the set: as long as the longest of these. An atom is found at once, and cutting
/// what it matches would be no gain.
pub(crate) fn longest_beside(set: &ZoneSet, other: &Expr, longest: Option<u64>) -> Option<u64>
    requires { IsLongest longest }
    ensures limit { IsLongest result }
    ensures all { (tree : PatternTree) (rest : Rest)
        → HoldExactly set.now (Lasting (LastsUpTo longest) (MatchesRest tree rest))
        → LastUpTo result set.now }
{
    if is_atom(other) {
        return longest;
    }
    Some(longest_of(set))
}

/// How long matches have to last at most, to be among the pairs of the set: no limit for an atom.
pub(crate) fn longest_for(set: &ZoneSet, expr: &Expr) -> Option<u64>
    ensures limit { IsLongest result }
    ensures all { LastUpTo result set.now }
{
    if is_atom(expr) {
        return None;
    }
    Some(longest_of(set))
}

fn is_atom(expr: &Expr) -> bool {
    match expr {
        Expr::Eps | Expr::Lit(_) | Expr::Rise(_) | Expr::Fall(_) | Expr::Event(_) => true,
        _ => false,
    }
}

// How long the pairs of the set last at most.
fn longest_of(set: &ZoneSet) -> u64
    ensures limit { result ≤ TIME_MAX }
    ensures all { LastUpTo (Some result) set.now }
{
    let mut most: u64 = 0;
    for zone in set.zones() {
        most = most.max(longest_in(zone));
    }
    most
}

// How long the pairs of the zone last at most.
fn longest_in(zone: &Zone) -> u64
    ensures limit { result ≤ TIME_MAX }
    ensures all { AllLastUpTo (Some result) zone.now }
{
    zone.bounds().dur_high.value().unsigned_abs()
}

/// Whether the expression is a repetition.
pub(crate) fn is_repetition(expr: &Expr) -> bool
    ensures { IsTrue result → IsRepetition (tree_of expr.now) }
{
    match expr {
        Expr::Star(_) => true,
        _ => false,
    }
}
