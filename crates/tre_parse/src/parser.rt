ghost use Rattle.std.specs.Prelude.{◌≡◌, ◌≤◌, ◌<◌, [], Ok, Err, Some, None, IfOk, IfErr, length};
ghost use Rattle.tre_parse.specs.declared.limits.TheConstants.{TEXT_MAX};
ghost use Rattle.tre_decimal.specs.declared.TheConstants.{SCALE_MAX};
ghost use Rattle.tre_syntax.specs.Pattern.{pattern_tree, names_of};
ghost use Rattle.tre_parse.specs.Front.{tokens_in};
ghost use Rattle.tre_parse.specs.Reader.{PatternTask};
ghost use Rattle.tre_parse.specs.Reading.{Reads};
ghost use Rattle.tre_parse.specs.Unkept.{FindsUpTo};
ghost use Rattle.tre_parse.specs.Numbering.{IsNumberedByUse};
ghost use Rattle.tre_parse.specs.Outcome.{IsSpelling, Outcome, IsOutcome};
ghost use Rattle.tre_parse.specs.Answers.{text_tokens_in, IsOfText, NoneBelowIn, IsFaultOf, IsWithinLimits, Answers, AnswersFirst};

use crate::connective::Join;
use crate::cursor::{Cursor, Stop};
use crate::expression::expression;
use crate::fault::ParseFault;
use crate::limits::{TEXT_MAX, first_big, first_deep, first_past};
use crate::operand::Operand;
use crate::scan::{Scan, scan_text};
use std::alloc::Global;
use tre_syntax::{NODES_MAX, Pattern};

/// The pattern that the text spells at a scale. A number of it is a whole number of units, each of
/// which is 10^-scale.
///
/// The refusals come in the order of the variants of `ParseFault`, each over the whole text before
/// the next. Want of memory may come at any point, except that a text that is too long is told to
/// be, whatever memory there is.
pub fn parse(alloc: Global, text: &str, scale: u8) -> Result<Pattern, ParseFault>
    requires { scale ≤ SCALE_MAX }
    ensures spelling { IfOk result (λ pattern. IsSpelling scale text.now (pattern_tree pattern)
        (names_of pattern)) }
    ensures outcome { Answers (IsOutcome scale text.now) result }
    ensures only { (outcome : Outcome) → IsOutcome scale text.now outcome →
        Answers (λ answer. outcome ≡ answer) result }
    ensures too_long { TEXT_MAX < length text.now → result ≡ Err ParseFault.TooLong }
{
    if text.len() > TEXT_MAX {
        return Err(ParseFault::TooLong);
    }
    let scan = scan_text(alloc, text, scale)?;
    parse_words(alloc, scan)
}

// The pattern that the words of a text spell.
fn parse_words(alloc: Global, scan: Scan) -> Result<Pattern, ParseFault>
    requires text { IsOfText scan }
    requires numbered { IsNumberedByUse (text_tokens_in scan) }
    ensures { AnswersFirst scan result }
{
    match read_words(alloc, &scan) {
        Ok(whole) => build(scan, whole),
        Err(fault) => Err(fault),
    }
}

// The expression that the words of a text spell, where they meet every limit.
fn read_words(alloc: Global, scan: &Scan) -> Result<Operand, ParseFault>
    ensures small { IfOk result (λ _. NoneBelowIn 4 scan.now) }
    ensures whole { IfOk result (λ whole. Reads (PatternTask.expression_by Join.Alternation)
        (Ok whole) (tokens_in scan.now.tokens.items) []) }
    ensures unkept { IfOk result (λ whole. FindsUpTo (tokens_in scan.now.tokens.items) []
        whole.unkept) }
    ensures judged { IfOk result (λ whole. IsWithinLimits scan.now whole) }
    ensures fault { IfErr result (λ fault. AnswersFirst scan.now (Err fault)) }
{
    within_limits(scan)?;
    let mut rest = Cursor::new(&scan.tokens);
    match expression(alloc, Join::Alternation, &mut rest) {
        Ok(whole) => match judge(scan, &rest, &whole) {
            Ok(()) => Ok(whole),
            Err(fault) => Err(fault),
        },
        Err(stop) => Err(fault_of(scan, stop)),
    }
}

// Refuses a number that is too big, and brackets that are too deep.
fn within_limits(scan: &Scan) -> Result<(), ParseFault>
    ensures ok { IfOk result (λ _. NoneBelowIn 4 scan.now) }
    ensures fault { IfErr result (λ fault. AnswersFirst scan.now (Err fault)) }
{
    if let Some(place) = first_big(&scan.tokens) {
        let at = scan.offset(place);
        return Err(ParseFault::Number { at });
    }
    if let Some(place) = first_deep(&scan.tokens) {
        let at = scan.offset(place);
        return Err(ParseFault::TooDeep { at });
    }
    Ok(())
}

// The fault of a text whose tokens can't be read on.
fn fault_of(scan: &Scan, stop: Stop) -> ParseFault
    ensures { IsFaultOf (text_tokens_in scan.now) stop result }
{
    match stop {
        Stop::Memory => ParseFault::Memory,
        Stop::Syntax { left } => ParseFault::Syntax {
            at: scan.offset(scan.place_of_left(left)),
        },
    }
}

// Refuses an expression that isn't the whole text, or isn't within the limits on its intervals, its
// names and its size.
fn judge(scan: &Scan, rest: &Cursor, whole: &Operand) -> Result<(), ParseFault>
    requires small { NoneBelowIn 4 scan.now }
    requires whole { Reads (PatternTask.expression_by Join.Alternation) (Ok whole.now)
        (tokens_in scan.now.tokens.items) rest.now }
    requires unkept { FindsUpTo (tokens_in scan.now.tokens.items) rest.now whole.now.unkept }
    ensures all { IfOk result (λ _. rest.now ≡ []) }
    ensures judged { IfOk result (λ _. IsWithinLimits scan.now whole.now) }
    ensures fault { IfErr result (λ fault. AnswersFirst scan.now (Err fault)) }
{
    if rest.left() > 0 {
        return Err(fault_of(scan, rest.refused()));
    }
    if let Some(left) = whole.unkept {
        let at = scan.offset(scan.place_of_left(left));
        return Err(ParseFault::EmptyInterval { at });
    }
    if let Some(place) = first_past(&scan.tokens) {
        let at = scan.offset(place);
        return Err(ParseFault::TooManyNames { at });
    }
    let nodes = whole.nodes;
    if nodes > NODES_MAX {
        return Err(ParseFault::TooLarge { nodes });
    }
    Ok(())
}

// The pattern of an expression that meets every limit.
fn build(scan: Scan, whole: Operand) -> Result<Pattern, ParseFault>
    requires text { IsOfText scan }
    requires numbered { IsNumberedByUse (text_tokens_in scan) }
    requires small { NoneBelowIn 4 scan }
    requires whole { Reads (PatternTask.expression_by Join.Alternation) (Ok whole)
        (tokens_in scan.tokens.items) [] }
    requires unkept { FindsUpTo (tokens_in scan.tokens.items) [] whole.unkept }
    requires judged { IsWithinLimits scan whole }
    ensures { AnswersFirst scan result }
{
    let nodes = whole.nodes;
    let Scan { names, events, .. } = scan;
    let Some(expr) = whole.into_tree(nodes) else {
        unreachable!()
    };
    let Some(pattern) = Pattern::new(expr, names, events) else {
        unreachable!()
    };
    Ok(pattern)
}
