// What a job asks for, as its texts or its file of checks say it.
ghost use Rattle.std.specs.Option.{option_map};
ghost use Rattle.std.specs.Prelude.{◌≡◌, ◌≢◌, ◌≤◌, ◌+◌, ◌∷◌, [], List, None, Some, IfOk, IfErr, IfSome, IsTrue, false, length, ℕ};
ghost use Rattle.tre_answer.specs.Request.{sought_in};
ghost use Rattle.tre_decimal.specs.declared.TheConstants.{SCALE_MAX};
ghost use Rattle.tre_define.specs.Texts.{parts_of};
ghost use Rattle.tre_feed.specs.Input.{TakesAtMost, input_told};
ghost use Rattle.tre_generate.specs.FixedPattern.{fixed_tree, fixed_vocabulary};
ghost use Rattle.tre_syntax.specs.declared.pattern.Pattern.{Pattern};
ghost use Rattle.tre_tell.specs.Sought.{Sought};
ghost use Rattle.tre_tool.specs.Parts.{IsAskedBy, RefusesDefinitions, StopsAsking, plain_sought, patterns_with};
ghost use Rattle.tre_tool.specs.Request.{Spell, alone, text_read, texts_with, AreDefinedIn, AreDefinitions, AreRefusedIn, IsRefusalOf};
ghost use Rattle.tre_tool.specs.Run.{ReadsChecks};
ghost use Rattle.tre_tool.specs.Status.{minus_status};
ghost use Rattle.tre_watch.specs.declared.reader.TheConstants.{FILE_MAX};
ghost use Rattle.tre_words.specs.Job.{IsJob, file_of};

use crate::checks::{asked_of_verdicts, asked_of_watch, meanings_of};
use crate::status::Status;
use std::alloc::{AllocError, Global};
use tre_answer::{Asked, Definitions};
use tre_define::{LetFault, read_signals};
use tre_generate::fixed_pattern;
use tre_io::Source;
use tre_num::read_definitions;
use tre_parse::{ParseFault, parse};
use tre_syntax::Pattern;
use tre_words::{Format, Job, Mode};

/// What a job asks for.
#[derive(Drop)]
pub struct Question {
    pub asked: Asked,
    /// What names mean, of columns or of the signals of a dump.
    pub definitions: Definitions,
}

// The end of a run at the refusal of the pattern that is taken away.
fn minus_status(fault: ParseFault) -> Status
    ensures { result ≡ minus_status fault }
{
    match fault {
        ParseFault::Memory => Status::Memory,
        _ => Status::Minus(fault),
    }
}

// The pattern of the text that is to be taken away, if there is one.
fn taken_by(alloc: Global, job: &Job) -> Result<Option<Pattern>, Status>
    requires { job.now.scale ≤ SCALE_MAX }
    ensures spells { IfOk result (λ taken. (pattern : Pattern) →
        Spell job.now.scale (job.now.expr ∷ []) (plain_sought pattern ∷ []) →
        Spell job.now.scale (texts_with job.now.expr job.now.minus)
        (patterns_with pattern taken)) }
    ensures none { IfOk result (λ taken. job.now.minus ≡ None → taken ≡ None) }
    ensures refuses { IfErr result (λ status. status ≢ Status.Memory → (patterns : List Sought) →
        Spell job.now.scale (job.now.expr ∷ []) patterns → IsRefusalOf job.now status) }
{
    match &job.minus {
        None => Ok(None),
        Some(text) => match parse(alloc, text.text(), job.scale) {
            Ok(pattern) => Ok(Some(pattern)),
            Err(fault) => Err(minus_status(fault)),
        },
    }
}

// No name is defined.
fn no_definitions(alloc: Global) -> Definitions
    ensures columns { result.columns.items ≡ [] }
    ensures signals { result.signals.items ≡ [] }
{
    Definitions {
        columns: Vec::new(alloc),
        signals: Vec::new(alloc),
    }
}

// The text of the job's definitions, if there is one.
fn text_given(job: &Job) -> Option<&str>
    ensures { option_map (λ text. text.now) result ≡ job.now.lets }
{
    match &job.lets {
        None => None,
        Some(text) => Some(text.text()),
    }
}

// The same, if the run reads it.
fn text_read(job: &Job) -> Option<&str>
    ensures { option_map (λ text. text.now) result ≡ text_read job.now.mode job.now.lets }
{
    match &job.mode {
        Mode::Show => None,
        Mode::Generate { .. } => None,
        _ => text_given(job),
    }
}

// The definitions of a text, as the format has them.
fn definitions_in(alloc: Global, format: Format, text: &str) -> Result<Definitions, LetFault>
    ensures defines { IfOk result (λ definitions. AreDefinedIn format (parts_of text.now)
        definitions.columns.items definitions.signals.items) }
    ensures refuses { IfErr result (λ fault. fault ≢ LetFault.Memory →
        AreRefusedIn format (parts_of text.now) fault) }
{
    match format {
        Format::Text => Ok(no_definitions(alloc)),
        Format::Vcd => {
            let signals = read_signals(alloc, text)?;
            Ok(Definitions {
                columns: Vec::new(alloc),
                signals,
            })
        }
        Format::Csv => {
            let columns = read_definitions(alloc, text)?;
            Ok(Definitions {
                columns,
                signals: Vec::new(alloc),
            })
        }
    }
}

// The definitions of the job's text, if there is one and they are read.
fn definitions_by(alloc: Global, job: &Job) -> Result<Definitions, Status>
    ensures defines { IfOk result (λ definitions.
        AreDefinitions job.now definitions.columns.items definitions.signals.items) }
    ensures refuses { IfErr result (λ status. status ≢ Status.Memory →
        RefusesDefinitions job.now status) }
{
    match text_read(job) {
        None => Ok(no_definitions(alloc)),
        Some(text) => {
            let definitions = definitions_in(alloc, job.format, text)?;
            Ok(definitions)
        }
    }
}

// A pattern without a label, and the one whose matches are taken away, if there is one.
fn plainly_asked(
    alloc: Global,
    pattern: Pattern,
    taken: Option<Pattern>,
) -> Result<Asked, AllocError>
    ensures sought { IfOk result (λ asked. sought_in asked ≡ patterns_with pattern taken) }
    ensures labels { IfOk result (λ asked.
        length asked.labels.items ≡ length asked.patterns.items) }
    ensures some { IfOk result (λ asked. 1 ≤ length asked.patterns.items) }
    ensures alone { taken ≡ None → IfOk result (λ asked. length asked.patterns.items ≡ 1) }
    ensures forms { IfOk result (λ asked. asked.forms.items ≡ []) }
{
    let mut patterns = Vec::new(alloc);
    let mut labels = Vec::new(alloc);
    patterns.push(pattern)?;
    labels.push(String::new(alloc))?;
    if let Some(other) = taken {
        patterns.push(other)?;
        labels.push(String::new(alloc))?;
    }
    Ok(Asked {
        patterns,
        labels,
        forms: Vec::new(alloc),
    })
}

// What the texts of a job ask for.
fn asked_by_texts(alloc: Global, job: &Job) -> Result<Question, Status>
    requires { job.now.scale ≤ SCALE_MAX }
    ensures spells { IfOk result (λ question. Spell job.now.scale
        (texts_with job.now.expr job.now.minus) (sought_in question.asked)) }
    ensures forms { IfOk result (λ question. question.asked.forms.items ≡ []) }
    ensures labels { IfOk result (λ question.
        length question.asked.labels.items ≡ length question.asked.patterns.items) }
    ensures some { IfOk result (λ question. 1 ≤ length question.asked.patterns.items) }
    ensures alone { IfOk result (λ question. job.now.minus ≡ None →
        length question.asked.patterns.items ≡ 1) }
    ensures defines { IfOk result (λ question. AreDefinitions job.now
        question.definitions.columns.items question.definitions.signals.items) }
    ensures refuses { IfErr result (λ status. status ≢ Status.Memory →
        IsRefusalOf job.now status) }
{
    let pattern = parse(alloc, job.expr.text(), job.scale)?;
    let taken = taken_by(alloc, job)?;
    let definitions = definitions_by(alloc, job)?;
    let asked = plainly_asked(alloc, pattern, taken)?;
    Ok(Question { asked, definitions })
}

// A made run has a pattern of its own, and no definitions.
fn asked_of_made_run(alloc: Global) -> Result<Question, Status>
    ensures pattern { IfOk result (λ question. sought_in question.asked
        ≡ alone fixed_tree fixed_vocabulary) }
    ensures labels { IfOk result (λ question. length question.asked.labels.items ≡ 1) }
    ensures alone { IfOk result (λ question. length question.asked.patterns.items ≡ 1) }
    ensures forms { IfOk result (λ question. question.asked.forms.items ≡ []) }
    ensures columns { IfOk result (λ question. question.definitions.columns.items ≡ []) }
    ensures signals { IfOk result (λ question. question.definitions.signals.items ≡ []) }
    ensures failed { IfErr result (λ status. status ≡ Status.Memory) }
{
    let pattern = fixed_pattern(alloc)?;
    let asked = plainly_asked(alloc, pattern, None)?;
    Ok(Question {
        asked,
        definitions: no_definitions(alloc),
    })
}

/// What a job asks for: the first of its texts that is refused ends the run, and definitions are
/// the last. A watch reads its file of checks from `checks` before the definitions; where checks
/// are judged, definitions are read first, since those of the file come behind them. No other job
/// looks at `checks`.
pub fn asked_by<P: Source>(alloc: Global, job: &Job, checks: &mut P) -> Result<Question, Status>
    requires closed { (P.told checks.old).opened ≡ false }
    requires job { IsJob job.now }
    ensures asks { IfOk result (λ question. IsAskedBy job.now
        (input_told (P.told checks.old) (P.told checks.new)) question.asked
        question.definitions.columns.items question.definitions.signals.items) }
    ensures stops { IfErr result (StopsAsking job.now
        (input_told (P.told checks.old) (P.told checks.new))) }
    ensures untouched { (ReadsChecks job.now.mode → ⊥) → checks.new ≡ checks.old }
    ensures bounded { IsTrue (P.told checks.new).opened →
        TakesAtMost (FILE_MAX + 1) (P.told checks.old).file (P.told checks.new).left }
    ensures by_name { IsTrue (P.told checks.new).opened → (file : List ℕ) →
        file_of job.now.mode ≡ Some file → IfSome (P.told checks.old).name (λ told. told ≡ file) }
{
    match &job.mode {
        Mode::Generate { .. } => {
            let question = asked_of_made_run(alloc)?;
            Ok(question)
        }
        Mode::Check { file } => {
            let given = definitions_by(alloc, job)?;
            let known = meanings_of(job.format, given);
            let question = asked_of_verdicts(alloc, file.text(), job.scale, known, checks)?;
            Ok(question)
        }
        Mode::Watch { file } => {
            let asked = asked_of_watch(alloc, file.text(), job.scale, checks)?;
            let definitions = definitions_by(alloc, job)?;
            Ok(Question { asked, definitions })
        }
        _ => {
            let question = asked_by_texts(alloc, job)?;
            Ok(question)
        }
    }
}
