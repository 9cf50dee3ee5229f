// The pattern that is matched over a made trace.
ghost use Rattle.std.specs.Prelude.{◌≡◌, IfOk};
ghost use Rattle.tre_syntax.specs.Expr.{tree_of};
ghost use Rattle.tre_syntax.specs.Pattern.{pattern_tree, names_of};
ghost use Rattle.tre_syntax.specs.PatternTree.{sequence};
ghost use Rattle.tre_generate.specs.FixedPattern.{pulse, pause, fixed_tree, fixed_vocabulary};

use std::alloc::{AllocError, Global};
use tre_state::{Names, State};
use tre_syntax::{Expr, Pattern};
use tre_zone::Interval;

/// The pattern that a made trace is matched with, `(<:p:>;(!p % [1,2]))+`.
pub fn fixed_pattern(alloc: Global) -> Result<Pattern, AllocError>
    ensures tree { IfOk result (λ pattern. pattern_tree pattern ≡ fixed_tree) }
    ensures names { IfOk result (λ pattern. names_of pattern ≡ fixed_vocabulary) }
{
    let once = pulse_and_pause(alloc)?;
    let again = Expr::Star(Box::new(alloc, pulse_and_pause(alloc)?)?);
    let expr = sequence(alloc, once, again)?;
    let names = one_name(alloc)?;
    let events = Names::new(alloc);
    match Pattern::new(expr, names, events) {
        Some(pattern) => Ok(pattern),
        None => unreachable!(),
    }
}

// The name of proposition 0.
fn one_name(alloc: Global) -> Result<Names, AllocError>
    ensures { IfOk result (λ names. names ≡ fixed_vocabulary.names) }
{
    let mut names = Names::new(alloc);
    match names.number("p") {
        Ok(_) => Ok(names),
        // There is room for the name, so only memory can lack.
        Err(_) => Err(AllocError),
    }
}

fn pulse_and_pause(alloc: Global) -> Result<Expr, AllocError>
    ensures { IfOk result (λ expr. tree_of expr ≡ sequence pulse pause) }
{
    let first = pulse(alloc)?;
    let second = pause(alloc)?;
    sequence(alloc, first, second)
}

// `<:p:>`
fn pulse(alloc: Global) -> Result<Expr, AllocError>
    ensures { IfOk result (λ expr. tree_of expr ≡ pulse) }
{
    let begin = sequence(alloc, Expr::Rise(State::Prop(0)), Expr::Lit(State::Prop(0)))?;
    sequence(alloc, begin, Expr::Fall(State::Prop(0)))
}

// `!p % [1,2]`
fn pause(alloc: Global) -> Result<Expr, AllocError>
    ensures { IfOk result (λ expr. tree_of expr ≡ pause) }
{
    let low = State::Not(Box::new(alloc, State::Prop(0))?);
    let low = Box::new(alloc, Expr::Lit(low))?;
    match Interval::new(1, true, Some(2), true) {
        Some(interval) => Ok(Expr::Within(low, interval)),
        None => unreachable!(),
    }
}

fn sequence(alloc: Global, first: Expr, second: Expr) -> Result<Expr, AllocError>
    ensures { IfOk result (λ expr. tree_of expr ≡ sequence (tree_of first) (tree_of second)) }
{
    let first = Box::new(alloc, first)?;
    let second = Box::new(alloc, second)?;
    Ok(Expr::Seq(first, second))
}
