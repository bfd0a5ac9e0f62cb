ghost use Rattle.std.specs.Prelude.{◌≡◌, map, IfOk};
ghost use Rattle.std.specs.List.{list_any};
ghost use Rattle.expect_text.specs.Beginnings.{any_begins, begins_event, begins_line, begins_named, begins_record, begins_with, can_match, left_after, left_after_byte};
ghost use Rattle.expect_text.specs.Views.{bytes_of};

use crate::squeezing::squeezed_text;
use job_tree::Name;
use std::alloc::{AllocError, Global};

// How the lines begin in which no name of the job comes next: a line that a task borrowed, a tick, the limit, a refusal, a
// deadlock.
const PLAIN_WORDS: &[&'static [u8]] = &[b"line ", b"tick ", b"limit ", b"refused ", b"deadlock: "];

// How the other lines of a report begin, in which a name of the job comes next.
const RECORD_WORDS: &[&'static [u8]] = &[
    b"job ",
    b"task ",
    b"scope ",
    b"nursery ",
    b"wait ",
    b"acquire ",
    b"send ",
    b"receive ",
];

// What follows that name: the index of a label, or a blank.
const AFTER_NAMES: &[&'static [u8]] = &[b".", b" "];

// What follows the name of a task in a story: the index of its label, or the first word of what happens to it.
const EVENT_WORDS: &[&'static [u8]] = &[
    b".",
    b" starts",
    b" enters ",
    b" sleeps ",
    b" is cancelled ",
    b" finds ",
    b" raises ",
    b" cancels ",
    b" sets ",
    b" waits ",
    b" goes on: ",
    b" gets a token of ",
    b" gives its token of ",
    b" sends to ",
    b" receives from ",
    b" closes ",
    b" has waited ",
    b" handles ",
    b" runs cleanup",
    b" replaces ",
    b" leaves ",
    b" ends: ",
    b" sleeping ",
    b" waiting ",
];

// Returns whether a pattern can match a line of a report or a story of a job that gives these names, as far as the beginning of
// the line says.
pub(crate) fn can_match(alloc: Global, names: &[Name], pattern: &[u8]) -> Result<bool, AllocError>
    ensures { IfOk result (λ can. can ≡ can_match names.now pattern.now) }
{
    let squeezed = squeezed_text(alloc, pattern)?;
    Ok(begins_line(names, squeezed.as_slice()))
}

// Returns the same for a squeezed pattern.
fn begins_line(names: &[Name], pattern: &[u8]) -> bool
    ensures { result ≡ begins_line names.now pattern.now }
{
    any_begins(PLAIN_WORDS, pattern) || any_named(names, pattern)
}

// Returns whether a pattern can match a line that begins with one of these names, also after a word of the report.
fn any_named(names: &[Name], pattern: &[u8]) -> bool
    ensures { result ≡ list_any (begins_named pattern.now) names.now }
{
    'names: for name in names {
        if begins_record(name.bytes(), pattern) || begins_event(name.bytes(), pattern) {
            return true;
        }
    }
    false
}

// Returns whether a pattern can match a line of a report that begins with one of its words and this name.
fn begins_record(name: &[u8], pattern: &[u8]) -> bool
    ensures { result ≡ begins_record name.now pattern.now }
{
    any_begins_with(RECORD_WORDS, name, pattern)
}

// Returns whether a pattern can match a line of a report that begins with one of these words and this name.
fn any_begins_with(words: &[&'static [u8]], name: &[u8], pattern: &[u8]) -> bool
    ensures { result ≡ list_any (begins_with name.now pattern.now) (map (λ word. word.now) words.now) }
{
    'words: for word in words {
        if begins_with(word, name, pattern) {
            return true;
        }
    }
    false
}

// Returns whether a pattern can match a line of a report that begins with this word and this name.
fn begins_with(word: &[u8], name: &[u8], pattern: &[u8]) -> bool
    ensures { result ≡ begins_with name.now pattern.now word.now }
{
    let Some(after_word) = left_after(word, pattern) else {
        return false;
    };
    match left_after(name, after_word) {
        Some(left) => any_begins(AFTER_NAMES, left),
        None => false,
    }
}

// Returns whether a pattern can match a line of a story that begins with this name.
fn begins_event(name: &[u8], pattern: &[u8]) -> bool
    ensures { result ≡ begins_event name.now pattern.now }
{
    match left_after(name, pattern) {
        Some(left) => any_begins(EVENT_WORDS, left),
        None => false,
    }
}

// Returns whether a pattern can match a line that begins with at least one of these texts.
fn any_begins(beginnings: &[&'static [u8]], pattern: &[u8]) -> bool
    ensures { result ≡ any_begins (map (λ beginning. beginning.now) beginnings.now) pattern.now }
{
    'beginnings: for beginning in beginnings {
        if left_after(beginning, pattern).is_some() {
            return true;
        }
    }
    false
}

// Returns what is left of a pattern for the rest of a line that begins so, or `None` if the pattern matches no such line.
fn left_after<'a>(beginning: &[u8], pattern: &'a [u8]) -> Option<&'a [u8]>
    ensures { bytes_of result ≡ left_after beginning.now pattern.now }
{
    let mut left = pattern;
    'bytes: for byte in beginning {
        let Some(later) = left_after_byte(*byte, left) else {
            return None;
        };
        left = later;
    }
    Some(left)
}

// Returns the same for the first byte of a line. A `*` stays.
fn left_after_byte<'a>(byte: u8, pattern: &'a [u8]) -> Option<&'a [u8]>
    ensures { bytes_of result ≡ left_after_byte byte pattern.now }
{
    let Some((first, later)) = pattern.split_first() else {
        return None;
    };
    if *first == b'*' {
        Some(pattern)
    } else if *first == byte {
        Some(later)
    } else {
        None
    }
}
