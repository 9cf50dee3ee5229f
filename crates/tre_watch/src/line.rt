// What one line of a file of checks says.
ghost use Rattle.std.specs.Prelude.{◌≡◌, ◌+◌, ◌≤◌, ℕ, List, [], ◌∷◌, length, drop, IsTrue, IfSome, None, MatchOption};
ghost use Rattle.std.specs.List.{list_all, prefix_len};
ghost use Rattle.std.specs.Str.{IsAscii};
ghost use Rattle.std.specs.Str.Lines.{strip_carriage_return};
ghost use Rattle.tre_state.specs.Name.{continues_name};
ghost use Rattle.tre_watch.specs.declared.form.Form.{Form};
ghost use Rattle.tre_watch.specs.Forms.{arrow_of, has_arrow};
ghost use Rattle.tre_watch.specs.Lines.{AreTexts, IsFirstArrow, IsNamed, Says, Stands, begins_word, behind_passed, behind_word, form_at, is_of_definition, is_silent, is_space_or_tab, word_in};
ghost use Rattle.tre_watch.specs.Steps.{IsLet, IsWorded, may_define, said_on, texts_of};

use crate::form::Form;
use std::str;
use tre_state::{continues_name, front_len, is_name, starts_name};

/// A line, as far as a file of checks goes.
#[derive(Clone, Copy)]
pub(crate) enum Line<'a> {
    Silent,
    Bad,
    Check(Check<'a>),
    /// The text of a definition.
    Let(&'a str),
}

/// A check, where its parts stand.
#[derive(Clone, Copy)]
pub(crate) struct Check<'a> {
    pub form: Form,
    pub name: &'a str,
    /// The text of its first pattern.
    pub first: &'a str,
    /// That of the second one, if it has one, and how many bytes stand before it behind the `=`.
    pub second: Option<(usize, &'a str)>,
}

pub(crate) fn read_line(line: &[u8]) -> Line<'_>
    ensures { Says line.now (said_on result) }
{
    let content = behind_blanks(without_return(line));
    if is_silent(content) {
        return Line::Silent;
    }
    line_of(content)
}

// What the line says on which this stands.
fn line_of(content: &[u8]) -> Line<'_>
    ensures { Stands content.now (said_on result) }
{
    if !content.is_ascii() {
        return Line::Bad;
    }
    match named(content) {
        Some((name, text)) => Line::Check(alone(Form::Plain, name, text)),
        None => worded(content),
    }
}

// The same, where no check stands without a word.
fn worded(content: &[u8]) -> Line<'_>
    requires ascii { IsAscii content.now }
    requires unnamed { (name text : List ℕ) → ¬ IsNamed content.now name text }
    ensures { Stands content.now (said_on result) }
{
    let word = ascii_text(name_before(content));
    let rest = behind_word(content);
    if word == "let" {
        return definition_on(rest);
    }
    match check_on(word, rest) {
        Some(check) => Line::Check(check),
        None => Line::Bad,
    }
}

// What the line says on which this stands behind the word of definitions.
fn definition_on(rest: &[u8]) -> Line<'_>
    requires { IsAscii rest.now }
    ensures { IsLet rest.now (said_on result) }
{
    if is_definition(rest) {
        Line::Let(ascii_text(rest))
    } else {
        Line::Bad
    }
}

// Whether one definition may stand there.
fn is_definition(text: &[u8]) -> bool
    ensures { result ≡ may_define text.now }
{
    begins_word(text) && is_one(text)
}

fn begins_word(bytes: &[u8]) -> bool
    ensures { result ≡ begins_word bytes.now }
{
    !bytes.is_empty() && starts_name(bytes[0])
}

// Whether no byte of it ends a definition.
fn is_one(text: &[u8]) -> bool
    ensures { result ≡ list_all is_of_definition text.now }
{
    text.iter().all(|&byte| !(byte == b';' || byte == b'\t'))
}

// The check that begins with this word, behind which this stands.
fn check_on<'a>(word: &str, rest: &'a [u8]) -> Option<Check<'a>>
    requires { IsAscii rest.now }
    ensures { MatchOption result ((form : Form) (name : List ℕ) (texts : List (List ℕ)) →
        ¬ IsWorded word.now rest.now form name texts)
        (λ check. IsWorded word.now rest.now check.form check.name.now (texts_of check)) }
{
    let Some((name, text)) = named(rest) else {
        return None;
    };
    if word == "never" {
        return Some(alone(Form::Never, name, text));
    }
    if word == "some" {
        return Some(alone(Form::Found, name, text));
    }
    if word == "each" {
        return paired(name, text);
    }
    None
}

// A check of one pattern.
fn alone<'a>(form: Form, name: &'a str, text: &'a [u8]) -> Check<'a>
    requires { IsAscii text.now }
    ensures form { result.form ≡ form }
    ensures name { result.name.now ≡ name.now }
    ensures texts { texts_of result ≡ text.now ∷ [] }
{
    Check {
        form,
        name,
        first: ascii_text(text),
        second: None,
    }
}

// A check of two patterns, if there is an arrow between them.
fn paired<'a>(name: &'a str, text: &'a [u8]) -> Option<Check<'a>>
    requires { IsAscii text.now }
    ensures { MatchOption result ((form : Form) (texts : List (List ℕ)) →
        IsTrue (has_arrow form) → ¬ AreTexts form text.now texts)
        (λ check. IsTrue (has_arrow check.form) × (check.name.now ≡ name.now)
        × AreTexts check.form text.now (texts_of check)) }
{
    let (form, place) = first_arrow(text)?;
    let behind = place + arrow_len(form);
    Some(Check {
        form,
        name,
        first: ascii_text(&text[..place]),
        second: Some((behind, ascii_text(&text[behind..]))),
    })
}

fn arrow_len(form: Form) -> usize
    ensures { result ≡ length (arrow_of form) }
{
    match form {
        Form::Same => 2,
        Form::Follows => 3,
        _ => 0,
    }
}

// The first arrow, and where it begins.
fn first_arrow(text: &[u8]) -> Option<(Form, usize)>
    ensures { MatchOption result ((place : ℕ) → form_at (drop place text.now) ≡ None)
        (λ found. IsFirstArrow found.0 text.now found.1
        × (found.1 + length (arrow_of found.0) ≤ length text.now)) }
{
    for place in 0..text.len() {
        if let Some(form) = form_at(&text[place..]) {
            return Some((form, place));
        }
    }
    None
}

// The form whose arrow stands in front.
fn form_at(bytes: &[u8]) -> Option<Form>
    ensures form { result ≡ form_at bytes.now }
    ensures within { IfSome result (λ form. length (arrow_of form) ≤ length bytes.now) }
{
    if bytes.starts_with(b"=>") {
        Some(Form::Same)
    } else if bytes.starts_with(b"|->") {
        Some(Form::Follows)
    } else {
        None
    }
}

// The line without the one carriage return at its end, where there is one.
fn without_return(line: &[u8]) -> &[u8]
    ensures { result.now ≡ strip_carriage_return line.now }
{
    let len = line.len();
    if len > 0 && line[len - 1] == b'\r' {
        return &line[..len - 1];
    }
    line
}

fn is_blank(byte: u8) -> bool
    ensures { result ≡ is_space_or_tab byte }
{
    byte == b' ' || byte == b'\t'
}

fn behind_blanks(bytes: &[u8]) -> &[u8]
    ensures { result.now ≡ behind_passed is_space_or_tab bytes.now }
{
    &bytes[blanks_len(bytes)..]
}

// How many blanks the bytes begin with.
fn blanks_len(bytes: &[u8]) -> usize
    ensures len { result ≡ prefix_len is_space_or_tab bytes.now }
    ensures within { result ≤ length bytes.now }
{
    front_len(bytes, is_blank)
}

// How many bytes of a name they begin with.
fn name_len(bytes: &[u8]) -> usize
    ensures len { result ≡ prefix_len continues_name bytes.now }
    ensures within { result ≤ length bytes.now }
{
    front_len(bytes, |byte| continues_name(byte))
}

// Whether nothing stands there, or a comment.
fn is_silent(content: &[u8]) -> bool
    ensures { result ≡ is_silent content.now }
{
    content.is_empty() || content[0] == b'#'
}

// The word in front.
fn name_before(bytes: &[u8]) -> &[u8]
    ensures { result.now ≡ word_in bytes.now }
{
    &bytes[..name_len(bytes)]
}

// What stands behind it and blanks.
fn behind_word(bytes: &[u8]) -> &[u8]
    ensures { result.now ≡ behind_word bytes.now }
{
    behind_blanks(&bytes[name_len(bytes)..])
}

// The name in front, and the text behind its `=`.
fn named(bytes: &[u8]) -> Option<(&str, &[u8])>
    requires { IsAscii bytes.now }
    ensures { MatchOption result ((name text : List ℕ) → ¬ IsNamed bytes.now name text)
        (λ found. IsNamed bytes.now found.0.now found.1.now × IsAscii found.1.now) }
{
    let name = ascii_text(name_before(bytes));
    if !is_name(name) {
        return None;
    }
    match behind_word(bytes) {
        [b'=', text @ ..] => Some((name, text)),
        _ => None,
    }
}

fn ascii_text(bytes: &[u8]) -> &str
    requires { IsAscii bytes.now }
    ensures { result.now ≡ bytes.now }
{
    match str::from_utf8(bytes) {
        Ok(text) => text,
        Err(_) => unreachable!(),
    }
}
