// Verdicts, and the pairs that are shown with them.
ghost use Rattle.std.specs.Prelude.{◌≡◌, List, IfOk, length, if◌then◌else◌};
ghost use Rattle.tre_judge.specs.Checks.{HoldFor, IsJudged};
ghost use Rattle.tre_judge.specs.Verdicts.{IsVerdict, IsVerdictOver, Nothing, ShownOver, Unanswered};
ghost use Rattle.tre_syntax.specs.Begun.{MayMatch};
ghost use Rattle.tre_syntax.specs.Meaning.{Matches};
ghost use Rattle.tre_syntax.specs.Pattern.{pattern_tree};
ghost use Rattle.tre_watch.specs.Forms.{patterns_of};
ghost use Rattle.tre_zone.specs.ZoneList.{AreTight, SetHolds, HoldExactly};
ghost use Rattle.tre_zone.specs.declared.zone_bounds.ZoneBounds.{ZoneBounds};

use crate::verdict::Verdict;
use std::alloc::{AllocError, Global};
use tre_minus::minus;
use tre_offline::{begun, begun_among, into_matches, matches, matches_among};
use tre_packed::Packed;
use tre_star::leading_on;
use tre_syntax::Pattern;
use tre_watch::Form;
use tre_zoneset::ZoneSet;

/// A verdict, and the pairs that are shown with it.
#[derive(Drop)]
pub struct Judged {
    pub verdict: Verdict,
    pub shown: ZoneSet,
}

/// The verdict on a check of one pattern, by how many zones of matches there are.
pub fn judge_alone(form: Form, zones: usize) -> Verdict
    requires { patterns_of form ≡ 1 }
    ensures { (matches : List ZoneBounds) → AreTight matches → length matches ≡ zones →
        IsVerdict form result (SetHolds matches) Nothing Nothing }
{
    match form {
        Form::Never => passing(zones == 0),
        Form::Found => passing(zones > 0),
        _ => Verdict::Unjudged,
    }
}

fn passing(passes: bool) -> Verdict
    ensures { result ≡ (if passes then Verdict.Passed else Verdict.Failed) }
{
    if passes {
        Verdict::Passed
    } else {
        Verdict::Failed
    }
}

/// The verdict on a check of two patterns, each over its own trace.
///
/// It goes as deep as the expressions do.
pub fn judge(
    alloc: Global,
    form: Form,
    pattern: &Pattern,
    trace: Packed,
    second: &Pattern,
    other: &Packed,
) -> Result<Judged, AllocError>
    requires { patterns_of form ≡ 2 }
    ensures verdict { IfOk result (λ judged. IsVerdictOver form judged.verdict
        (pattern_tree pattern.now) trace (pattern_tree second.now) other.now) }
    ensures shown { IfOk result (λ judged. HoldExactly judged.shown (ShownOver form judged.verdict
        (pattern_tree pattern.now) trace (pattern_tree second.now) other.now)) }
{
    let subject = into_matches(alloc, pattern, trace)?;
    let answers = answers_to(alloc, form, second, other, &subject)?;
    let may = may_answer(alloc, form, second, other, &subject, &answers)?;
    // For the proof: the calls say what sets are.
    let _subject = subject.zones();
    let _answers = answers.zones();
    let _may = may.zones();
    judge_sets(alloc, form, &subject, &may, &answers)
}

// The matches of the pattern that a check of this form asks for, beside those of the subject.
fn answers_to(
    alloc: Global,
    form: Form,
    pattern: &Pattern,
    trace: &Packed,
    subject: &ZoneSet,
) -> Result<ZoneSet, AllocError>
    ensures { IfOk result (λ zones.
        HoldFor form subject.now zones (Matches (pattern_tree pattern.now) trace.now)) }
{
    match form {
        Form::Same => matches_among(alloc, pattern, trace, subject),
        _ => matches(alloc, pattern, trace),
    }
}

// These, and what has begun of the pattern.
fn may_answer(
    alloc: Global,
    form: Form,
    pattern: &Pattern,
    trace: &Packed,
    subject: &ZoneSet,
    answers: &ZoneSet,
) -> Result<ZoneSet, AllocError>
    requires { HoldFor form subject.now answers.now (Matches (pattern_tree pattern.now) trace.now) }
    ensures { IfOk result (λ zones.
        HoldFor form subject.now zones (MayMatch (pattern_tree pattern.now) trace.now)) }
{
    let mut may = match form {
        Form::Same => begun_among(alloc, pattern, trace, subject)?,
        _ => begun(alloc, pattern, trace)?,
    };
    may.join(answers)?;
    Ok(may)
}

// The verdict on the pairs of the subject, which may come to be answered by some pairs, and by
// others are.
fn judge_sets(
    alloc: Global,
    form: Form,
    subject: &ZoneSet,
    may: &ZoneSet,
    answers: &ZoneSet,
) -> Result<Judged, AllocError>
    ensures { IfOk result (λ judged. IsJudged judged.verdict judged.shown (SetHolds subject.now)
        (Unanswered form (SetHolds subject.now) (SetHolds may.now))
        (Unanswered form (SetHolds subject.now) (SetHolds answers.now))) }
{
    let failing = unanswered(alloc, form, subject, may)?;
    // For the proof: the calls say what sets are.
    let _failing = failing.zones();
    let _subject = subject.zones();
    if !failing.is_empty() {
        return Ok(Judged {
            verdict: Verdict::Failed,
            shown: failing,
        });
    }
    if subject.is_empty() {
        return Ok(Judged {
            verdict: Verdict::Vacuous,
            shown: failing,
        });
    }
    let waiting = unanswered(alloc, form, subject, answers)?;
    let _waiting = waiting.zones();
    if waiting.is_empty() {
        return Ok(Judged {
            verdict: Verdict::Passed,
            shown: waiting,
        });
    }
    Ok(Judged {
        verdict: Verdict::Waiting,
        shown: waiting,
    })
}

// The pairs of the subject that none of the others answers.
fn unanswered(
    alloc: Global,
    form: Form,
    subject: &ZoneSet,
    others: &ZoneSet,
) -> Result<ZoneSet, AllocError>
    ensures { IfOk result (λ left.
        HoldExactly left (Unanswered form (SetHolds subject.now) (SetHolds others.now))) }
{
    match form {
        Form::Same => minus(alloc, subject, others),
        Form::Follows => {
            let led = leading_on(alloc, subject, others)?;
            minus(alloc, subject, &led)
        }
        _ => Ok(ZoneSet::new(alloc)),
    }
}
