// What an expression matches where the trace has ended.
ghost use Rattle.std.specs.Prelude.{◌↔◌, IsTrue};
ghost use Rattle.tre_syntax.specs.AtTheEnd.{MatchesAtEnd};
ghost use Rattle.tre_syntax.specs.Expr.{tree_of};
ghost use Rattle.tre_syntax.specs.PatternTree.{NumbersBelow};

use tre_edges::happens;
use tre_state::NAMES_MAX;
use tre_syntax::Expr;

/// Whether the expression matches the end of a trace, the one moment, where these events happen.
/// Over no further segment it matches nothing else, so this says all of it.
///
/// It goes as deep as the expression does.
pub fn matches_at_end(expr: &Expr, events: u64) -> bool
    requires { NumbersBelow NAMES_MAX (tree_of expr.now) }
    ensures { IsTrue result ↔ MatchesAtEnd events (tree_of expr.now) }
{
    match expr {
        Expr::Eps => true,
        Expr::Lit(_) | Expr::Rise(_) | Expr::Fall(_) => false,
        Expr::Event(number) => happens(*number, events),
        Expr::Seq(left, right) | Expr::Meet(left, right) => {
            matches_at_end(left, events) && matches_at_end(right, events)
        }
        Expr::Alt(left, right) => matches_at_end(left, events) || matches_at_end(right, events),
        Expr::Star(_) => true,
        Expr::Within(body, interval) => matches_at_end(body, events) && interval.holds(0, 1),
    }
}
