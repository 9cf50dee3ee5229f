// What a file of checks asks for.
ghost use Rattle.std.specs.Prelude.{◌≡◌, ◌≤◌, ◌<◌, ◌+◌, ◌∷◌, ◌++◌, [], IfOk, IfErr, IfSome, IsTrue, OnOk, codes, false, length, map, string_bytes};
ghost use Rattle.tre_answer.specs.Request.{sought_in};
ghost use Rattle.tre_decimal.specs.declared.TheConstants.{SCALE_MAX};
ghost use Rattle.tre_feed.specs.Input.{AllReadsGood, TakesAtMost, input_told};
ghost use Rattle.tre_tool.specs.Checks.{ChecksWereRead, SayPatterns, SayVerdicts, columns_in, labelled, names_each, signals_in};
ghost use Rattle.tre_tool.specs.Parts.{StopsChecks};
ghost use Rattle.tre_tool.specs.Request.{known_by};
ghost use Rattle.tre_watch.specs.Forms.{patterns_in};
ghost use Rattle.tre_watch.specs.Outcome.{judged, watched};
ghost use Rattle.tre_watch.specs.Steps.{known_in, spelt_in};
ghost use Rattle.tre_watch.specs.declared.reader.TheConstants.{FILE_MAX};

use crate::asked::Question;
use crate::status::Status;
use std::alloc::{AllocError, Global};
use tre_answer::{Asked, Definitions};
use tre_feed::read_front;
use tre_io::Source;
use tre_state::Names;
use tre_watch::{Checks, FILE_MAX, Form, Meanings, read_checks, read_plan};
use tre_words::Format;

// A label: the name of a check and what stands behind it.
fn label_of(alloc: Global, name: &str, behind: &str) -> Result<String, AllocError>
    ensures { IfOk result (λ label. string_bytes label ≡ name.now ++ behind.now) }
{
    let mut label = String::from_str(alloc, name)?;
    label.push_str(behind)?;
    Ok(label)
}

// Adds the labels of a check, one for each of its patterns.
fn add_labels(
    alloc: Global,
    labels: &mut Vec<String>,
    name: &str,
    form: Form,
    behind: &str,
) -> Result<(), AllocError>
    ensures { OnOk result (map string_bytes labels.new.items
        ≡ map string_bytes labels.old.items
        ++ map (λ name. name ++ behind.now) (names_each (name.now ∷ []) (form ∷ []))) }
{
    labels.push(label_of(alloc, name, behind)?)?;
    if form.has_arrow() {
        labels.push(label_of(alloc, name, behind)?)?;
    }
    Ok(())
}

// The labels of checks, one for each pattern.
fn labels_of(
    alloc: Global,
    names: &Names,
    forms: &[Form],
    behind: &str,
) -> Result<Vec<String>, AllocError>
    requires { length forms.now ≡ length names.now }
    ensures { IfOk result (λ labels. map string_bytes labels.items
        ≡ map (λ name. name ++ behind.now) (names_each names.now forms.now)) }
{
    let mut labels = Vec::new(alloc);
    for place in 0..names.len() {
        if let Some(name) = names.name(place as u8) {
            add_labels(alloc, &mut labels, name, forms[place], behind)?;
        }
    }
    Ok(labels)
}

// What a plan asks for.
fn asked_of_plan(alloc: Global, plan: Checks) -> Result<Asked, AllocError>
    requires { length plan.forms.items ≡ length plan.names }
    ensures sought { IfOk result (λ asked. sought_in asked
        ≡ labelled (map (λ name. name ++ codes " ") (names_each plan.names plan.forms.items))
        (spelt_in plan.patterns.items)) }
    ensures labels { IfOk result (λ asked.
        length asked.labels.items ≡ patterns_in plan.forms.items) }
    ensures patterns { IfOk result (λ asked. asked.patterns ≡ plan.patterns) }
    ensures forms { IfOk result (λ asked. asked.forms.items ≡ []) }
{
    let labels = labels_of(alloc, &plan.names, &plan.forms, " ")?;
    Ok(Asked {
        patterns: plan.patterns,
        labels,
        forms: Vec::new(alloc),
    })
}

/// What the file of checks of this name asks for in a watch. `checks` has the file.
pub fn asked_of_watch<P: Source>(
    alloc: Global,
    file: &str,
    scale: u8,
    checks: &mut P,
) -> Result<Asked, Status>
    requires closed { (P.told checks.old).opened ≡ false }
    requires scale { scale ≤ SCALE_MAX }
    ensures patterns { IfOk result (λ asked. SayPatterns (ChecksWereRead
        (input_told (P.told checks.old) (P.told checks.new))) scale (sought_in asked)) }
    ensures forms { IfOk result (λ asked. asked.forms.items ≡ []) }
    ensures labels { IfOk result (λ asked.
        length asked.labels.items ≡ length asked.patterns.items) }
    ensures some { IfOk result (λ asked. 0 < length asked.patterns.items) }
    ensures good { OnOk result (AllReadsGood
        (input_told (P.told checks.old) (P.told checks.new))) }
    ensures stops { IfErr result (StopsChecks file.now watched scale
        (input_told (P.told checks.old) (P.told checks.new))) }
    ensures bounded { IsTrue (P.told checks.new).opened →
        TakesAtMost (FILE_MAX + 1) (P.told checks.old).file (P.told checks.new).left }
    ensures by_name { IsTrue (P.told checks.new).opened →
        IfSome (P.told checks.old).name (λ told. told ≡ file.now) }
{
    let bytes = read_front(alloc, file, FILE_MAX + 1, checks)?;
    let plan = read_plan(alloc, &bytes, scale)?;
    let asked = asked_of_plan(alloc, plan)?;
    Ok(asked)
}

/// The definitions of a format, as a file of checks goes on with them.
pub fn meanings_of(format: Format, definitions: Definitions) -> Meanings
    ensures { known_in result
        ≡ known_by format definitions.columns.items definitions.signals.items }
{
    match format {
        Format::Text => Meanings::Nothing,
        Format::Vcd => Meanings::Signals(definitions.signals),
        Format::Csv => Meanings::Columns(definitions.columns),
    }
}

// The definitions that a file of checks ends with.
fn definitions_of(alloc: Global, meanings: Meanings) -> Definitions
    ensures columns { result.columns.items ≡ columns_in (known_in meanings) }
    ensures signals { result.signals.items ≡ signals_in (known_in meanings) }
{
    let mut definitions = Definitions {
        columns: Vec::new(alloc),
        signals: Vec::new(alloc),
    };
    match meanings {
        Meanings::Nothing => {}
        Meanings::Signals(signals) => definitions.signals = signals,
        Meanings::Columns(columns) => definitions.columns = columns,
    }
    definitions
}

// What checks with verdicts ask for.
fn question_of(alloc: Global, read: Checks) -> Result<Question, AllocError>
    requires { length read.forms.items ≡ length read.names }
    ensures sought { IfOk result (λ question. sought_in question.asked
        ≡ labelled (names_each read.names read.forms.items) (spelt_in read.patterns.items)) }
    ensures labels { IfOk result (λ question.
        length question.asked.labels.items ≡ patterns_in read.forms.items) }
    ensures patterns { IfOk result (λ question. question.asked.patterns ≡ read.patterns) }
    ensures forms { IfOk result (λ question. question.asked.forms ≡ read.forms) }
    ensures columns { IfOk result (λ question. question.definitions.columns.items
        ≡ columns_in (known_in read.meanings)) }
    ensures signals { IfOk result (λ question. question.definitions.signals.items
        ≡ signals_in (known_in read.meanings)) }
{
    let labels = labels_of(alloc, &read.names, &read.forms, "")?;
    let asked = Asked {
        patterns: read.patterns,
        labels,
        forms: read.forms,
    };
    let definitions = definitions_of(alloc, read.meanings);
    Ok(Question { asked, definitions })
}

/// What the file of checks of this name asks for where each check is judged. Its definitions come
/// behind those that are known. `checks` has the file.
pub fn asked_of_verdicts<P: Source>(
    alloc: Global,
    file: &str,
    scale: u8,
    known: Meanings,
    checks: &mut P,
) -> Result<Question, Status>
    requires closed { (P.told checks.old).opened ≡ false }
    requires scale { scale ≤ SCALE_MAX }
    ensures verdicts { IfOk result (λ question. SayVerdicts (ChecksWereRead
        (input_told (P.told checks.old) (P.told checks.new))) (known_in known) scale
        (sought_in question.asked) question.asked.forms.items
        question.definitions.columns.items question.definitions.signals.items) }
    ensures count { IfOk result (λ question. length question.asked.patterns.items
        ≡ patterns_in question.asked.forms.items) }
    ensures labels { IfOk result (λ question.
        length question.asked.labels.items ≡ length question.asked.patterns.items) }
    ensures some { IfOk result (λ question. 0 < length question.asked.patterns.items) }
    ensures good { OnOk result (AllReadsGood
        (input_told (P.told checks.old) (P.told checks.new))) }
    ensures stops { IfErr result (StopsChecks file.now (judged (known_in known)) scale
        (input_told (P.told checks.old) (P.told checks.new))) }
    ensures bounded { IsTrue (P.told checks.new).opened →
        TakesAtMost (FILE_MAX + 1) (P.told checks.old).file (P.told checks.new).left }
    ensures by_name { IsTrue (P.told checks.new).opened →
        IfSome (P.told checks.old).name (λ told. told ≡ file.now) }
{
    let bytes = read_front(alloc, file, FILE_MAX + 1, checks)?;
    let read = read_checks(alloc, &bytes, scale, known)?;
    let question = question_of(alloc, read)?;
    Ok(question)
}
