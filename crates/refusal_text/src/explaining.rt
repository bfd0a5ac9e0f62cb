ghost use Rattle.std.specs.Prelude.{◌≡◌, ◌∷◌, ◌++◌, ◌<◌, ◌≤◌, length, take, map, replicate, codes, decimal, IfOk, OnOk};
ghost use Rattle.std.specs.List.{before_first};
ghost use Rattle.std.specs.String.{string_bytes};
ghost use Rattle.refusal_text.specs.Explaining.{Tells, pointed_message, heading, shown_byte, is_newline, last_of, most_after, hint_of, hint_line, meant_line, keyword_line, place_line, size_line, quoted_name, more_quoted_names, none_around, list_head, names_line, names_of};
ghost use Rattle.job_syntax.specs.Keywords.{spelling_of};
ghost use Rattle.refusal_text.specs.Positions.{IsPosition};
ghost use Rattle.refusal_text.specs.Scopes.{names_held};
ghost use Rattle.basics.specs.Places.{line_of, column_of};

use crate::findings::{Findings, findings_of};
use crate::hinting::Hint;
use crate::position::Position;
use crate::sentences::sentence_of;
use basics::{column_of, line_of, push_str_number};
use job_reader::{JobFault, TargetKind};
use job_syntax::Keyword;
use job_tree::Name;
use std::alloc::{AllocError, Global};

// The maximum number of bytes of a line that are shown before a place, and from that place on.
const MAX_BEFORE: usize = 60;

const MAX_AFTER: usize = 40;

/// Returns the message that explains a refusal to the user: that of `pointed_message`, with a sentence for the kind of the
/// refusal. If there is a hint, one more line has it: such as a keyword that is nearly spelled, a block that is not closed,
/// what a job has in place of a word of Trio, or which scopes and nurseries could be cancelled there, or which events, limiters or
/// channels could be used. `job` is the name that the user gave the text. The only error is that memory is short.
pub fn refusal_message(
    alloc: Global,
    job: &str,
    text: &[u8],
    fault: JobFault,
) -> Result<String, AllocError>
    ensures { IfOk result (λ message. Tells job.now text.now fault (string_bytes message)) }
{
    let Findings {
        asked,
        hint,
        used,
        names,
    } = findings_of(alloc, text, fault)?;
    let (_, rest) = text.split_at(fault.at.min(text.len()));
    let sentence = sentence_of(fault.kind, rest.first().copied(), asked, used);
    let mut message = pointed_message(alloc, job, text, fault.at, sentence)?;
    push_help(&mut message, job, text, hint)?;
    push_names(&mut message, used, &names)?;
    Ok(message)
}

/// Returns a message about a place of a job text: `JOB:LINE:COLUMN: ` and a sentence, the line of the job text, and a caret
/// under the place. `at` is the place in bytes. Of a long line, the 60 bytes before the place and the 40 bytes from it on are
/// shown. A byte that is not printable ASCII is shown as `?`, and a tab or a carriage return as a space. `job` is the name that
/// the user gave the text. The only error is that memory is short.
pub fn pointed_message(
    alloc: Global,
    job: &str,
    text: &[u8],
    at: usize,
    sentence: &str,
) -> Result<String, AllocError>
    ensures { IfOk result (λ message. string_bytes message ≡ pointed_message job.now text.now at sentence.now) }
{
    message_at(alloc, job, text, Position::of(text, at), sentence)
}

/// Returns the same message about a place whose line and column are known. Requires that the position is one of the text. The
/// only error is that memory is short.
pub fn message_at(
    alloc: Global,
    job: &str,
    text: &[u8],
    position: Position,
    sentence: &str,
) -> Result<String, AllocError>
    requires { IsPosition text.now position }
    ensures { IfOk result (λ message. string_bytes message ≡ pointed_message job.now text.now position.at sentence.now) }
{
    let Position { at, line, column } = position;
    let (front, rest) = text.split_at(at.min(text.len()));
    let mut message = heading(alloc, job, line, column, sentence)?;
    let shown = (column - 1).min(MAX_BEFORE);
    push_shown(&mut message, last_bytes(front, shown))?;
    push_shown(&mut message, first_line(first_bytes(rest)))?;
    message.push_str("\n")?;
    push_spaces(&mut message, shown)?;
    message.push_str("^\n")?;
    Ok(message)
}

// Returns the place and the sentence.
fn heading(
    alloc: Global,
    job: &str,
    line: usize,
    column: usize,
    sentence: &str,
) -> Result<String, AllocError>
    ensures { IfOk result (λ message. string_bytes message ≡ heading job.now line column sentence.now) }
{
    let mut message = String::from_str(alloc, job)?;
    push_place(&mut message, line)?;
    push_place(&mut message, column)?;
    message.push_str(": ")?;
    message.push_str(sentence)?;
    message.push_str("\n")?;
    Ok(message)
}

// Appends a colon and a number.
fn push_place(message: &mut String, n: usize) -> Result<(), AllocError>
    ensures { OnOk result (string_bytes message.new ≡ string_bytes message.old ++ codes ":" ++ decimal n) }
{
    message.push_str(":")?;
    push_str_number(message, n as u64)
}

// Returns the last `count` bytes. Requires that there are as many.
fn last_bytes(bytes: &[u8], count: usize) -> &[u8]
    requires { count ≤ length bytes.now }
    ensures { result.now ≡ last_of count bytes.now }
{
    let (_, last) = bytes.split_at(bytes.len() - count);
    last
}

// Returns the first bytes, as many as are shown.
fn first_bytes(bytes: &[u8]) -> &[u8]
    ensures { result.now ≡ take most_after bytes.now }
{
    let (first, _) = bytes.split_at(MAX_AFTER.min(bytes.len()));
    first
}

// Returns the bytes before the first newline.
fn first_line(bytes: &[u8]) -> &[u8]
    ensures { result.now ≡ before_first is_newline bytes.now }
{
    'bytes: for (i, b) in bytes.iter().enumerate() {
        if *b == b'\n' {
            let (line, _) = bytes.split_at(i);
            return line;
        }
    }
    bytes
}

// Appends bytes, each as one character.
fn push_shown(message: &mut String, bytes: &[u8]) -> Result<(), AllocError>
    ensures { OnOk result (string_bytes message.new ≡ string_bytes message.old ++ map shown_byte bytes.now) }
{
    'bytes: for b in bytes {
        message.push(shown_byte(*b))?;
    }
    Ok(())
}

// Appends this many spaces.
fn push_spaces(message: &mut String, count: usize) -> Result<(), AllocError>
    ensures { OnOk result (string_bytes message.new ≡ string_bytes message.old ++ replicate count 32) }
{
    'spaces: for _done in 0..count {
        message.push_str(" ")?;
    }
    Ok(())
}

// Returns the character that is shown for a byte.
fn shown_byte(byte: u8) -> char
    ensures value { result ≡ shown_byte byte }
    ensures ascii { result < 128 }
{
    match byte {
        b' '..=b'~' => byte as char,
        b'\t' | b'\r' => ' ',
        _ => '?',
    }
}

// Appends a hint, if there is one.
fn push_help(
    message: &mut String,
    job: &str,
    text: &[u8],
    help: Option<Hint>,
) -> Result<(), AllocError>
    ensures { OnOk result (string_bytes message.new ≡ string_bytes message.old ++ hint_of job.now text.now help) }
{
    match help {
        Some(hint) => push_hint(message, job, text, hint),
        None => Ok(()),
    }
}

// Appends the line of a hint.
fn push_hint(message: &mut String, job: &str, text: &[u8], hint: Hint) -> Result<(), AllocError>
    ensures { OnOk result (string_bytes message.new ≡ string_bytes message.old ++ hint_line job.now text.now hint) }
{
    match hint {
        Hint::Advice(advice) => message.push_str(advice.text()),
        Hint::Meant(keyword) => push_meant(message, keyword),
        Hint::Keyword(keyword) => push_keyword(message, keyword),
        Hint::OpenSince(at) => push_at(
            message,
            "the innermost block that is not closed begins at ",
            job,
            text,
            at,
        ),
        Hint::GivenAt(at) => push_at(message, "it was first given at ", job, text, at),
        Hint::Size(size) => push_size(message, size),
    }
}

// Appends the number of step instances of a job.
fn push_size(message: &mut String, size: u64) -> Result<(), AllocError>
    ensures { OnOk result (string_bytes message.new ≡ string_bytes message.old ++ size_line size) }
{
    message.push_str("the job has ")?;
    push_str_number(message, size)?;
    message.push_str(" steps\n")?;
    Ok(())
}

// Appends the line that lists what could be named, if it is to be listed: what the step can use.
fn push_names(
    message: &mut String,
    used: TargetKind,
    names: &Option<Vec<Name>>,
) -> Result<(), AllocError>
    ensures { OnOk result (string_bytes message.new ≡ string_bytes message.old ++ names_of used (names_held names.now)) }
{
    match names {
        Some(names) => push_list(message, used, names.as_slice()),
        None => Ok(()),
    }
}

// Appends the line that lists what could be named.
fn push_list(message: &mut String, used: TargetKind, names: &[Name]) -> Result<(), AllocError>
    ensures { OnOk result (string_bytes message.new ≡ string_bytes message.old ++ names_line used names.now) }
{
    let Some((first, others)) = names.split_first() else {
        return message.push_str(none_around(used));
    };
    push_some(message, used, *first, others)?;
    Ok(())
}

// Returns that there is nothing that could be named.
fn none_around(used: TargetKind) -> &'static str
    ensures { result.now ≡ none_around used }
{
    match used {
        TargetKind::Scope => "no scope or nursery is around this `cancel`\n",
        TargetKind::Event => "no event is around this step\n",
        TargetKind::Limiter => "no limiter is around this step\n",
        TargetKind::Channel => "no channel is around this step\n",
    }
}

// Returns what is written before the names.
fn list_head(used: TargetKind) -> &'static str
    ensures { result.now ≡ list_head used }
{
    match used {
        TargetKind::Scope => "what can be cancelled here: ",
        TargetKind::Event => "the events around this step: ",
        TargetKind::Limiter => "the limiters around this step: ",
        TargetKind::Channel => "the channels around this step: ",
    }
}

// Appends the line that lists at least one name.
fn push_some(
    message: &mut String,
    used: TargetKind,
    first: Name,
    others: &[Name],
) -> Result<(), AllocError>
    ensures { OnOk result (string_bytes message.new ≡ string_bytes message.old ++ names_line used (first ∷ others.now)) }
{
    message.push_str(list_head(used))?;
    push_quoted(message, first)?;
    push_more(message, others)?;
    message.push_str("\n")?;
    Ok(())
}

// Appends each of these names after a comma.
fn push_more(message: &mut String, names: &[Name]) -> Result<(), AllocError>
    ensures { OnOk result (string_bytes message.new ≡ string_bytes message.old ++ more_quoted_names names.now) }
{
    'names: for name in names {
        message.push_str(", ")?;
        push_quoted(message, *name)?;
    }
    Ok(())
}

// Appends a name between back quotes.
fn push_quoted(message: &mut String, name: Name) -> Result<(), AllocError>
    ensures { OnOk result (string_bytes message.new ≡ string_bytes message.old ++ quoted_name name) }
{
    message.push_str("`")?;
    push_shown(message, name.bytes())?;
    message.push_str("`")?;
    Ok(())
}

// Appends the line that asks whether a keyword was meant.
fn push_meant(message: &mut String, keyword: Keyword) -> Result<(), AllocError>
    ensures { OnOk result (string_bytes message.new ≡ string_bytes message.old ++ meant_line (spelling_of keyword)) }
{
    message.push_str("did you mean `")?;
    push_shown(message, keyword.bytes())?;
    message.push_str("`?\n")?;
    Ok(())
}

// Appends the line that says that a name is a keyword.
fn push_keyword(message: &mut String, keyword: Keyword) -> Result<(), AllocError>
    ensures { OnOk result (string_bytes message.new ≡ string_bytes message.old ++ keyword_line (spelling_of keyword)) }
{
    message.push_str("`")?;
    push_shown(message, keyword.bytes())?;
    message.push_str("` is a keyword: choose another name\n")?;
    Ok(())
}

// Appends a line of some words and a place, as `JOB:LINE:COLUMN`.
fn push_at(
    message: &mut String,
    what: &str,
    job: &str,
    text: &[u8],
    at: usize,
) -> Result<(), AllocError>
    ensures { OnOk result (string_bytes message.new ≡ string_bytes message.old ++ place_line what.now job.now text.now at) }
{
    message.push_str(what)?;
    message.push_str(job)?;
    push_place(message, line_of(text, at))?;
    push_place(message, column_of(text, at))?;
    message.push_str("\n")
}
