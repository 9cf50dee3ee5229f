// The constructors of residuals: each means its form.

use std::alloc::{AllocError, Global};
use std::test::Fail;
use tests_support::set_of;
use tre_residual::Residual;
use tre_syntax::Expr;
use tre_zone::Interval;
use tre_zoneset::ZoneSet;

/// Forms around a residual.
#[derive(Clone, Copy)]
enum Form {
    /// The pairs of the lines, and then the residual.
    After,
    /// The residual, or nothing.
    Choice,
    /// The residual, and nothing.
    Nothing,
    /// The residual, and then `eps`.
    Followed,
    /// The residual, within so many ticks.
    Lasting,
}

// Lines of one pair.
const WHOLE: &str = "[0,0] [2,2] [2,2]";

const FIRST: &str = "[0,0] [1,1] [1,1]";

const SECOND: &str = "[1,1] [2,2] [1,1]";

/// A residual at the tick 2 in a form, and what of it holds.
struct Case {
    name: &'static str,
    /// The pair of this line, which ends now.
    line: &'static str,
    /// That pair, or the same and then `eps`.
    is_choice: bool,
    form: Form,
    /// The pairs of the form.
    lines: &'static [&'static str],
    /// Its ticks.
    ticks: u32,
    /// Whether the pair (0,2) is there.
    is_whole: bool,
}

// The form around the residual, with these pairs and this interval.
fn around(
    alloc: Global,
    form: Form,
    first: ZoneSet,
    interval: Interval,
    inner: Residual,
) -> Result<Residual, AllocError> {
    match form {
        Form::After => Residual::pre(alloc, first, inner),
        Form::Choice => Residual::or(alloc, Residual::Nil, inner),
        Form::Nothing => Residual::both(alloc, Residual::Nil, inner),
        Form::Followed => Residual::post(alloc, inner, Expr::Eps),
        Form::Lasting => Residual::dur(alloc, inner, interval),
    }
}

// The pair of the line, which ends now.
fn here(alloc: Global, line: &str) -> Result<Residual, Fail> {
    Ok(Residual::Here(set_of(alloc, &[line])?))
}

// The pair of the line, which ends now, or that pair and then `eps`.
fn choice(alloc: Global, line: &str) -> Result<Residual, Fail> {
    let ended = set_of(alloc, &[line])?;
    let begun = set_of(alloc, &[line])?;
    Ok(Residual::or(alloc, Residual::Here(ended), Residual::At(begun, Expr::Eps))?)
}

fn inner(alloc: Global, case: &Case) -> Result<Residual, Fail> {
    if case.is_choice {
        return choice(alloc, case.line);
    }
    here(alloc, case.line)
}

fn residual(alloc: Global, case: &Case) -> Result<Residual, Fail> {
    let ticks = u64::from(case.ticks);
    let interval = Interval::new(ticks, true, Some(ticks), true).ok_or("no interval")?;
    let first = set_of(alloc, case.lines)?;
    let inner = inner(alloc, case)?;
    Ok(around(alloc, case.form, first, interval, inner)?)
}

// Whether the residual at the tick 2 holds the pair of ticks, where nothing comes and the only
// expression is `eps`. No row is left with a set in front, and none is a mark.
fn holds(residual: &Residual, a: u64, b: u64) -> bool {
    match residual {
        Residual::Nil => false,
        Residual::Here(zones) => zones.holds(a, b, 1),
        Residual::At(zones, _) => b == 2 && zones.holds(a, b, 1),
        Residual::Pre(_, _) => true,
        Residual::Post(first, _) => b == 2 && holds(first, a, b),
        Residual::Or(one, other) => holds(one, a, b) || holds(other, a, b),
        Residual::Both(one, other) => holds(one, a, b) && holds(other, a, b),
        Residual::Dur(inner, interval) => holds(inner, a, b)
            && interval.holds(b.saturating_sub(a), 1),
        Residual::Mark(_) => true,
    }
}

const CASES: [Case; 8] = [
    Case {
        name: "nothing before it",
        line: WHOLE,
        is_choice: false,
        form: Form::After,
        lines: &[],
        ticks: 0,
        is_whole: false,
    },
    Case {
        name: "it or nothing",
        line: WHOLE,
        is_choice: false,
        form: Form::Choice,
        lines: &[],
        ticks: 0,
        is_whole: true,
    },
    Case {
        name: "it and nothing",
        line: WHOLE,
        is_choice: false,
        form: Form::Nothing,
        lines: &[],
        ticks: 0,
        is_whole: false,
    },
    Case {
        name: "too long",
        line: WHOLE,
        is_choice: false,
        form: Form::Lasting,
        lines: &[],
        ticks: 1,
        is_whole: false,
    },
    Case {
        name: "as long",
        line: WHOLE,
        is_choice: false,
        form: Form::Lasting,
        lines: &[],
        ticks: 2,
        is_whole: true,
    },
    Case {
        name: "nothing behind it",
        line: WHOLE,
        is_choice: false,
        form: Form::Followed,
        lines: &[],
        ticks: 0,
        is_whole: true,
    },
    Case {
        name: "two parts",
        line: SECOND,
        is_choice: true,
        form: Form::After,
        lines: &[FIRST],
        ticks: 0,
        is_whole: true,
    },
    Case {
        name: "parts that don't meet",
        line: SECOND,
        is_choice: true,
        form: Form::After,
        lines: &[WHOLE],
        ticks: 0,
        is_whole: false,
    },
];

// Whether the residual holds the pair (0,2) or not, as this says, and no other.
fn means(residual: &Residual, whole: bool) -> bool {
    for a in 0..4 {
        for b in 0..4 {
            if holds(residual, a, b) != (whole && a == 0 && b == 2) {
                return false;
            }
        }
    }
    true
}

fn is_as_said(alloc: Global, case: &Case) -> Result<bool, Fail> {
    let residual = residual(alloc, case)?;
    Ok(means(&residual, case.is_whole))
}

#[test]
fn constructors_mean_their_forms(rt: HostRuntime) -> Result<(), Fail> {
    for case in &CASES {
        let name = case.name;
        assert!(rt; is_as_said(rt.alloc(), case)?, "{name}");
    }
    Ok(())
}
