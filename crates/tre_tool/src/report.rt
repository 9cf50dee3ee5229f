ghost use Rattle.std.specs.Prelude.{◌≡◌, ◌++◌, codes, decimal, flat_map, OnOk, OnErr};
ghost use Rattle.std.specs.Io.KnownBytes.{Appends};
ghost use Rattle.tre_io.specs.Faults.{HasCause};
ghost use Rattle.tre_io.specs.Written.{AppendsPart};
ghost use Rattle.tre_tool.specs.Parts.{fault_words, fault_number};
ghost use Rattle.tre_tool.specs.Status.{kind_name, refusal_words, error_line};

use crate::Status;
use itoa::Buffer;
use tre_define::LetFault;
use tre_io::{Failed, Sink, put_all};
use tre_parse::ParseFault;
use tre_trace::TraceKind;
use tre_watch::WatchFault;

fn kind_name(kind: TraceKind) -> &'static str
    ensures { result.now ≡ kind_name kind }
{
    match kind {
        TraceKind::LineTooLong => "LineTooLong",
        TraceKind::BadNumber => "BadNumber",
        TraceKind::Zero => "Zero",
        TraceKind::TooLate => "TooLate",
        TraceKind::BadName => "BadName",
        TraceKind::BadToken => "BadToken",
        TraceKind::BadScale => "BadScale",
        TraceKind::UnknownName => "UnknownName",
        TraceKind::TooFine => "TooFine",
        TraceKind::TimeBack => "TimeBack",
        TraceKind::CutShort => "CutShort",
        TraceKind::Spent => "Spent",
        TraceKind::Memory => "Memory",
    }
}

fn fault_words(fault: &ParseFault) -> &'static str
    ensures { result.now ≡ fault_words fault.now }
{
    match fault {
        ParseFault::TooLong => "TooLong",
        ParseFault::BadByte { .. } => "BadByte at ",
        ParseFault::Number { .. } => "Number at ",
        ParseFault::TooDeep { .. } => "TooDeep at ",
        ParseFault::Syntax { .. } => "Syntax at ",
        ParseFault::EmptyInterval { .. } => "EmptyInterval at ",
        ParseFault::TooManyNames { .. } => "TooManyNames at ",
        ParseFault::TooLarge { .. } => "TooLarge ",
        ParseFault::Memory => "Memory",
    }
}

fn fault_number(fault: &ParseFault) -> Option<u64>
    ensures { result ≡ fault_number fault.now }
{
    match fault {
        ParseFault::BadByte { at }
        | ParseFault::Number { at }
        | ParseFault::TooDeep { at }
        | ParseFault::Syntax { at }
        | ParseFault::EmptyInterval { at }
        | ParseFault::TooManyNames { at } => Some(*at),
        ParseFault::TooLarge { nodes } => Some(*nodes),
        ParseFault::TooLong | ParseFault::Memory => None,
    }
}

fn put_pieces<E: Sink>(err: &mut E, pieces: &[&str]) -> Result<(), Failed>
    ensures all { OnOk result (Appends (E.told err.old).written (E.told err.new).written
        (flat_map (λ piece. piece.now) pieces.now)) }
    ensures part { OnErr result (AppendsPart (E.told err.old).written (E.told err.new).written
        (flat_map (λ piece. piece.now) pieces.now)) }
    ensures cause { HasCause (E.told err.old).faults (E.told err.new).faults result }
{
    for piece in pieces {
        put_all(err, piece.as_bytes())?;
    }
    Ok(())
}

// Tells of a refused pattern, behind these words.
fn tell_fault<E: Sink>(front: &'static str, fault: &ParseFault, err: &mut E) -> Result<(), Failed>
    ensures line { OnOk result (Appends (E.told err.old).written (E.told err.new).written
        (front.now ++ refusal_words fault.now)) }
    ensures part { OnErr result (AppendsPart (E.told err.old).written (E.told err.new).written
        (front.now ++ refusal_words fault.now)) }
    ensures cause { HasCause (E.told err.old).faults (E.told err.new).faults result }
{
    let words = fault_words(fault);
    match fault_number(fault) {
        None => put_pieces(err, &[front, words, "\n"]),
        Some(number) => {
            let mut buffer = Buffer::new();
            let digits = buffer.format(number);
            put_pieces(err, &[front, words, digits, "\n"])
        }
    }
}

// Tells of refused definitions.
fn tell_definitions<E: Sink>(fault: &LetFault, err: &mut E) -> Result<(), Failed>
    ensures line { OnOk result (Appends (E.told err.old).written (E.told err.new).written
        (error_line (Status.Definitions fault.now))) }
    ensures part { OnErr result (AppendsPart (E.told err.old).written (E.told err.new).written
        (error_line (Status.Definitions fault.now))) }
    ensures cause { HasCause (E.told err.old).faults (E.told err.new).faults result }
{
    match fault {
        LetFault::BadLet { at } => tell_number(err, "montre: definitions: BadLet at ", *at),
        LetFault::Twice { at } => tell_number(err, "montre: definitions: Twice at ", *at),
        LetFault::Memory => put_pieces(err, &["montre: definitions: Memory\n"]),
    }
}

// Tells a line that ends with a number.
fn tell_number<E: Sink>(err: &mut E, front: &'static str, number: u64) -> Result<(), Failed>
    ensures line { OnOk result (Appends (E.told err.old).written (E.told err.new).written
        (front.now ++ (decimal number ++ codes "\n"))) }
    ensures part { OnErr result (AppendsPart (E.told err.old).written (E.told err.new).written
        (front.now ++ (decimal number ++ codes "\n"))) }
    ensures cause { HasCause (E.told err.old).faults (E.told err.new).faults result }
{
    let mut buffer = Buffer::new();
    let digits = buffer.format(number);
    put_pieces(err, &[front, digits, "\n"])
}

// Tells of a refused check, behind the number of its line.
fn tell_check<E: Sink>(line: u64, fault: &ParseFault, err: &mut E) -> Result<(), Failed>
    ensures line { OnOk result (Appends (E.told err.old).written (E.told err.new).written
        (error_line (Status.Watch (WatchFault.Pattern line fault.now)))) }
    ensures part { OnErr result (AppendsPart (E.told err.old).written (E.told err.new).written
        (error_line (Status.Watch (WatchFault.Pattern line fault.now)))) }
    ensures cause { HasCause (E.told err.old).faults (E.told err.new).faults result }
{
    let words = fault_words(fault);
    let mut line_buffer = Buffer::new();
    let place = line_buffer.format(line);
    let front = "montre: watch: Pattern at ";
    match fault_number(fault) {
        None => put_pieces(err, &[front, place, ": ", words, "\n"]),
        Some(number) => {
            let mut buffer = Buffer::new();
            let digits = buffer.format(number);
            put_pieces(err, &[front, place, ": ", words, digits, "\n"])
        }
    }
}

// Tells of a refused file of checks.
fn tell_watch<E: Sink>(fault: &WatchFault, err: &mut E) -> Result<(), Failed>
    ensures line { OnOk result (Appends (E.told err.old).written (E.told err.new).written
        (error_line (Status.Watch fault.now))) }
    ensures part { OnErr result (AppendsPart (E.told err.old).written (E.told err.new).written
        (error_line (Status.Watch fault.now))) }
    ensures cause { HasCause (E.told err.old).faults (E.told err.new).faults result }
{
    match fault {
        WatchFault::TooLarge => put_pieces(err, &["montre: watch: TooLarge\n"]),
        WatchFault::BadLine { line } => tell_number(err, "montre: watch: BadLine at ", *line),
        WatchFault::TooMany { line } => tell_number(err, "montre: watch: TooMany at ", *line),
        WatchFault::Twice { line } => tell_number(err, "montre: watch: Twice at ", *line),
        WatchFault::Pattern { line, fault } => tell_check(*line, fault, err),
        WatchFault::Empty => put_pieces(err, &["montre: watch: Empty\n"]),
        WatchFault::Memory => put_pieces(err, &["montre: watch: Memory\n"]),
    }
}

/// Tells standard error how the run ended. It takes no memory: the line goes out piece by piece.
///
/// At `Failed` a first part of the line was taken, which may be empty and isn't the whole.
pub fn tell_status<E: Sink>(status: &Status, err: &mut E) -> Result<(), Failed>
    ensures line { OnOk result
        (Appends (E.told err.old).written (E.told err.new).written (error_line status.now)) }
    ensures part { OnErr result
        (AppendsPart (E.told err.old).written (E.told err.new).written (error_line status.now)) }
    ensures cause { HasCause (E.told err.old).faults (E.told err.new).faults result }
{
    match status {
        Status::Done => Ok(()),
        Status::Usage => put_pieces(err, &["montre: wrong arguments\n"]),
        Status::Expression(fault) => tell_fault("montre: expression: ", fault, err),
        Status::Minus(fault) => tell_fault("montre: minus expression: ", fault, err),
        Status::Definitions(fault) => tell_definitions(fault, err),
        Status::Watch(fault) => tell_watch(fault, err),
        Status::Trace(fault) => {
            let mut buffer = Buffer::new();
            let place = buffer.format(fault.place);
            let name = kind_name(fault.kind);
            put_pieces(err, &["montre: trace: ", name, " at ", place, "\n"])
        }
        Status::TooManyZones { zones } => tell_number(err, "montre: too many zones ", *zones),
        Status::Failed { checks } => tell_number(err, "montre: failed checks ", *checks),
        Status::InputTooLong => put_pieces(err, &["montre: input too long\n"]),
        Status::ReadFault => put_pieces(err, &["montre: read fault\n"]),
        Status::WriteFault => put_pieces(err, &["montre: write fault\n"]),
        Status::Memory => put_pieces(err, &["montre: out of memory\n"]),
    }
}
