// The command line as `clap` sees it, and what `clap` finds in words.
ghost use Rattle.std.specs.Prelude.{◌≡◌, ◌≢◌, map, string_bytes, IfOk, OnOk, IsErrOf, IfSome, IfNone, Some, None, [], false};
ghost use Rattle.clap.specs.Words.{app_of, rule_of, found_of, rows_of, matches_of, fault_of, first_of};
ghost use Rattle.tre_words.specs.CommandLine.{flag_rule, option_rule, default_rule, operand_rule, command_line, found_in};
ghost use Rattle.tre_words.specs.Job.{is_given};

use crate::job::WordsFault;
use clap::error::ErrorKind;
use clap::{Arg, ArgAction, ArgMatches, Command};
use std::alloc::{AllocError, Global};

fn flag<'a>(alloc: Global, name: &'a str) -> Arg<'a>
    ensures rule { rule_of result ≡ flag_rule name.entry.now }
    ensures local { result.global ≡ false }
{
    Arg::new(alloc, name).long(name).action(ArgAction::SetTrue)
}

fn option<'a>(alloc: Global, name: &'a str) -> Arg<'a>
    ensures rule { rule_of result ≡ option_rule name.entry.now }
    ensures local { result.global ≡ false }
{
    Arg::new(alloc, name).long(name).action(ArgAction::Set)
}

fn with_default<'a>(alloc: Global, name: &'a str, default: &'a str) -> Arg<'a>
    ensures rule { rule_of result ≡ default_rule name.entry.now default.entry.now }
    ensures local { result.global ≡ false }
{
    Arg::new(alloc, name)
        .long(name)
        .action(ArgAction::Set)
        .default_value(default)
}

fn operand<'a>(alloc: Global, name: &'a str) -> Arg<'a>
    ensures rule { rule_of result ≡ operand_rule name.entry.now }
    ensures local { result.global ≡ false }
{
    Arg::new(alloc, name).action(ArgAction::Set).required(true)
}

fn command_line<'a>(alloc: Global) -> Result<Command<'a>, AllocError>
    ensures { IfOk result (λ command. app_of command ≡ command_line) }
{
    let bare = Command::new(alloc, "montre")
        .no_binary_name(true)
        .disable_help_flag(true);
    let command = bare
        .arg(flag(alloc, "online"))?
        .arg(flag(alloc, "show"))?
        .arg(with_default(alloc, "format", "text"))?
        .arg(with_default(alloc, "input", "-"))?
        .arg(with_default(alloc, "max-bytes", "1073741824"))?
        .arg(with_default(alloc, "scale", "0"))?
        .arg(flag(alloc, "normal"))?
        .arg(option(alloc, "max-zones"))?
        .arg(option(alloc, "minus"))?
        .arg(option(alloc, "let"))?
        .arg(option(alloc, "define"))?
        .arg(option(alloc, "unit"))?
        .arg(operand(alloc, "EXPR"))?;
    Ok(command)
}

// What `clap` answers to words of which it has a fault.
fn words_fault(kind: ErrorKind) -> WordsFault
    ensures memory { kind ≡ ErrorKind.OutOfMemory → result ≡ WordsFault.Memory }
    ensures others { kind ≢ ErrorKind.OutOfMemory → result ≡ WordsFault.Usage }
{
    match kind {
        ErrorKind::OutOfMemory => WordsFault::Memory,
        _ => WordsFault::Usage,
    }
}

pub(crate) fn parse_words<'a>(
    alloc: Global,
    words: &'a [String],
) -> Result<ArgMatches<'a>, WordsFault>
    ensures matches { IfOk result (λ matches.
        rows_of (found_of matches) ≡ matches_of command_line (map string_bytes words.entry.now)) }
    ensures usage { IsErrOf result WordsFault.Usage →
        fault_of command_line (map string_bytes words.entry.now) ≢ [] }
    ensures faultless { OnOk result
        (fault_of command_line (map string_bytes words.entry.now) ≡ []) }
{
    let command = command_line(alloc)?;
    match command.try_get_matches_from(words) {
        Ok(matches) => Ok(matches),
        Err(error) => Err(words_fault(error.kind())),
    }
}

// The value of an option, given or not, or of the operand.
pub(crate) fn value_of<'a>(matches: &ArgMatches<'a>, name: &str) -> Option<&'a str>
    ensures some { IfSome result (λ value.
        first_of name.now (rows_of (found_of matches.now)) ≡ Some value.now) }
    ensures none { IfNone result (first_of name.now (rows_of (found_of matches.now)) ≡ None) }
{
    matches.get_str(name)
}

pub(crate) fn is_given(matches: &ArgMatches, name: &str) -> bool
    ensures { result ≡ is_given name.now (found_in (rows_of (found_of matches.now))) }
{
    match value_of(matches, name) {
        Some(text) => text == "true",
        None => false,
    }
}
