ghost use Rattle.std.specs.Prelude.{◌≡◌, IfOk, Some};
ghost use Rattle.std.specs.Option.{option_map};
ghost use Rattle.expect_text.specs.Expectations.{demand_line, faults_line, from_word, has_colon, is_comment, begins_with_word, is_demand, is_letter, is_without_demands, no_kind, races_line, line_meaning, pattern_line, unwanted_line, wanted_line, with_kind, with_kinds};
ghost use Rattle.expect_text.specs.Lines.{parts_of};
ghost use Rattle.expect_text.specs.Views.{said_of};

use crate::beginnings::can_match;
use crate::parts::split_once;
use crate::words::{from_word, is_word, rest_after};
use job_tree::Name;
use outcomes::Deny;
use std::alloc::{AllocError, Global};

/// What a line of a `.expect` file requires of a job.
#[derive(Clone, Copy, Debug, PartialEq, Eq)]
pub enum Expectation<'a> {
    /// At least one line of the report or the story matches the pattern.
    Present(&'a [u8]),
    /// No line of the report or the story matches the pattern.
    Absent(&'a [u8]),
    /// There is no race: `races` has nothing to deny.
    NoRaces,
    /// No fault has one of these consequences for the job: `faults` has nothing to deny of these kinds.
    NoFaults(Deny),
}

/// The meaning of a line of a `.expect` file.
#[derive(Clone, Copy, Debug, PartialEq, Eq)]
pub enum ExpectLine<'a> {
    /// Nothing: the line is blank or a comment.
    Nothing,
    /// An expectation.
    Expects(Expectation<'a>),
    /// The line is wrong, for this reason.
    Faulty(LineFault),
}

/// What is wrong with a line of a `.expect` file.
#[derive(Clone, Copy, Debug, PartialEq, Eq)]
pub enum LineFault {
    /// It begins with a word of letters and a colon, and the word is neither `races` nor `faults` nor `deadlock`.
    UnknownWord,
    /// It begins with `races:` or `faults:` and does not continue as such a line does.
    WrongDemand,
    /// A line that begins with a word and a colon follows `! `. Only a pattern can be negated.
    NegatedDemand,
    /// It is a pattern, and no line of a report or a story of the job begins as the pattern does.
    NoSuchLine,
}

/// Returns the meaning of a line of a `.expect` file, which is passed without its newline, for a job that gives these names to
/// itself, its tasks, scopes, nurseries and events. Blanks are spaces, tabs and carriage returns, and those at the start of the
/// line do not count.
///
/// A blank line means nothing, and so does one that begins with `#`. A line that begins with `races:` continues with `none`. A
/// line that begins with `faults:` continues with one or more of `no stuck`, `no cut` and `no lost`, separated by commas; blanks
/// around these do not count. A line that begins with another word of letters and a colon is wrong, unless the word is
/// `deadlock`: no other line of a report or a story begins so. After `! ` comes a pattern that no line may match. Any other line
/// as a whole is a pattern that some line must match.
///
/// A pattern is wrong if its beginning, up to its first `*`, can begin no line of a report or a story of the job: such a line
/// begins with `line`, `tick`, `limit`, `refused` or `deadlock:`; with `job`, `task`, `scope`, `nursery`, `wait`, `acquire`, `send`
/// or `receive` and a name of the job; or with the name of a task and what happens to it. Returns `AllocError` if memory runs out.
pub fn read_expectation<'a>(
    alloc: Global,
    names: &[Name],
    line: &'a [u8],
) -> Result<ExpectLine<'a>, AllocError>
    ensures { IfOk result (λ said. said_of said ≡ line_meaning names.now line.now) }
{
    let text = from_word(line);
    if is_comment(text) {
        return Ok(ExpectLine::Nothing);
    }
    match demand_line(text) {
        Some(said) => Ok(said),
        None => {
            let said = pattern_line(alloc, names, line, text)?;
            Ok(said)
        }
    }
}

/// Returns whether no line of a `.expect` file means anything: each is blank or a comment, so that the file demands nothing.
pub fn is_without_demands(file: &[u8]) -> bool
    ensures { result ≡ is_without_demands file.now }
{
    let mut left = file;
    'lines: while let Some((line, rest)) = split_once(left, b'\n') {
        if !is_comment(from_word(line)) {
            return false;
        }
        left = rest;
    }
    is_comment(from_word(left))
}

// Returns whether a text is empty or a comment.
fn is_comment(text: &[u8]) -> bool
    ensures { result ≡ is_comment text.now }
{
    match text.split_first() {
        Some((first, _)) => *first == b'#',
        None => true,
    }
}

// Returns the meaning of a line that begins with `races:` or `faults:`, or `None` if it begins with neither.
fn demand_line<'a>(text: &[u8]) -> Option<ExpectLine<'a>>
    ensures { option_map said_of result ≡ demand_line text.now }
{
    if let Some(rest) = rest_after(b"races:", text) {
        return Some(races_line(rest));
    }
    match rest_after(b"faults:", text) {
        Some(rest) => Some(faults_line(rest)),
        None => None,
    }
}

// Returns the meaning of a line that is neither a comment nor begins with `races:` or `faults:`. `text` is the line from its
// first byte on that is not a blank.
fn pattern_line<'a>(
    alloc: Global,
    names: &[Name],
    line: &'a [u8],
    text: &'a [u8],
) -> Result<ExpectLine<'a>, AllocError>
    ensures { IfOk result (λ said. said_of said ≡ pattern_line names.now line.now text.now) }
{
    match rest_after(b"! ", text) {
        Some(pattern) => {
            let said = unwanted_line(alloc, names, pattern)?;
            Ok(said)
        }
        None => {
            let said = wanted_line(alloc, names, line, text)?;
            Ok(said)
        }
    }
}

// Returns the meaning of a line that is a pattern, or begins with an unknown word and a colon. `text` is the line from its first
// byte on that is not a blank.
fn wanted_line<'a>(
    alloc: Global,
    names: &[Name],
    line: &'a [u8],
    text: &[u8],
) -> Result<ExpectLine<'a>, AllocError>
    ensures { IfOk result (λ said. said_of said ≡ wanted_line names.now line.now (is_demand text.now)) }
{
    if is_demand(text) {
        return Ok(ExpectLine::Faulty(LineFault::UnknownWord));
    }
    if !can_match(alloc, names, line)? {
        return Ok(ExpectLine::Faulty(LineFault::NoSuchLine));
    }
    Ok(ExpectLine::Expects(Expectation::Present(line)))
}

// Returns the meaning of a line in which this follows `! `.
fn unwanted_line<'a>(
    alloc: Global,
    names: &[Name],
    pattern: &'a [u8],
) -> Result<ExpectLine<'a>, AllocError>
    ensures { IfOk result (λ said. said_of said ≡ unwanted_line names.now pattern.now (is_demand (from_word pattern.now))) }
{
    if is_demand(from_word(pattern)) {
        return Ok(ExpectLine::Faulty(LineFault::NegatedDemand));
    }
    if !can_match(alloc, names, pattern)? {
        return Ok(ExpectLine::Faulty(LineFault::NoSuchLine));
    }
    Ok(ExpectLine::Expects(Expectation::Absent(pattern)))
}

// Returns whether a text begins as a demand does, and as no line of a report or a story.
fn is_demand(text: &[u8]) -> bool
    ensures { result ≡ is_demand text.now }
{
    rest_after(b"deadlock:", text).is_none() && begins_with_word(text)
}

// Returns whether a text begins with a word of letters and a colon directly after it.
fn begins_with_word(text: &[u8]) -> bool
    ensures { result ≡ begins_with_word text.now }
{
    match text.split_first() {
        Some((first, rest)) => is_letter(*first) && has_colon(rest),
        None => false,
    }
}

// Returns whether a text is letters, or none, and then a colon and any bytes.
fn has_colon(text: &[u8]) -> bool
    ensures { result ≡ has_colon text.now }
{
    'bytes: for byte in text {
        if *byte == b':' {
            return true;
        }
        if !is_letter(*byte) {
            return false;
        }
    }
    false
}

// Returns whether a byte is an ASCII letter.
fn is_letter(b: u8) -> bool
    ensures { result ≡ is_letter b }
{
    (b'a' <= b && b <= b'z') || (b'A' <= b && b <= b'Z')
}

// Returns the meaning of a line in which this follows `races:`.
fn races_line<'a>(rest: &[u8]) -> ExpectLine<'a>
    ensures { said_of result ≡ races_line rest.now }
{
    if is_word(b"none", rest) {
        ExpectLine::Expects(Expectation::NoRaces)
    } else {
        ExpectLine::Faulty(LineFault::WrongDemand)
    }
}

// Returns the meaning of a line in which this follows `faults:`.
fn faults_line<'a>(rest: &[u8]) -> ExpectLine<'a>
    ensures { said_of result ≡ faults_line rest.now }
{
    match kinds_in(rest) {
        Some(kinds) => ExpectLine::Expects(Expectation::NoFaults(kinds)),
        None => ExpectLine::Faulty(LineFault::WrongDemand),
    }
}

// Returns the kinds that a list separated by commas names, or `None` if one of its parts does not name a kind.
fn kinds_in(list: &[u8]) -> Option<Deny>
    ensures { result ≡ with_kinds (Some no_kind) (parts_of 44 list.now) }
{
    let mut kinds = Deny {
        stuck: false,
        cut: false,
        lost: false,
    };
    let mut left = list;
    'parts: while let Some((part, rest)) = split_once(left, b',') {
        let Some(more) = with_kind(kinds, part) else {
            return None;
        };
        kinds = more;
        left = rest;
    }
    with_kind(kinds, left)
}

// Returns the kinds with the one added that a text names, or `None` if it does not name a kind.
fn with_kind(kinds: Deny, text: &[u8]) -> Option<Deny>
    ensures { result ≡ with_kind kinds text.now }
{
    if is_word(b"no stuck", text) {
        Some(Deny {
            stuck: true,
            ..kinds
        })
    } else if is_word(b"no cut", text) {
        Some(Deny { cut: true, ..kinds })
    } else if is_word(b"no lost", text) {
        Some(Deny {
            lost: true,
            ..kinds
        })
    } else {
        None
    }
}
