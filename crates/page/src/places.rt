ghost use Rattle.std.specs.Prelude.{◌≡◌, ◌++◌, List, IfOk, OnOk};
ghost use Rattle.job_reader.specs.Refusals.{Spells};
ghost use Rattle.page.specs.Links.{places_in, with_place, line_of_name, name_before, either, line_after, line_here, line_in, line_of_sentence};

use crate::front::{ByteKind, split_front};
use basics::line_of;
use commands::given_after;
use job_reader::Name;
use job_tokens::Token;
use std::alloc::{AllocError, Global};

/// A name that a job gives, and the line of the job where it stands.
#[derive(Clone, Copy)]
pub struct Place {
    /// The name.
    pub name: Name,
    /// The number of the line, from 1 on.
    pub line: usize,
}

// Returns the names that the tokens of a text give, with their lines.
pub(crate) fn places_in(
    alloc: Global,
    text: &[u8],
    tokens: &[Token],
) -> Result<Vec<Place>, AllocError>
    ensures { IfOk result (λ places. places.items ≡ places_in text.now tokens.now) }
{
    let mut places = Vec::new(alloc);
    let mut rest = tokens;
    'tokens: while let Some((token, others)) = rest.split_first() {
        let given = given_after(*token, others);
        push_place(&mut places, text, given, token.at)?;
        rest = others;
    }
    Ok(places)
}

// Appends a name that the keyword at this place gives, if it gives one.
fn push_place(
    places: &mut Vec<Place>,
    text: &[u8],
    given: Option<Name>,
    at: usize,
) -> Result<(), AllocError>
    ensures { OnOk result ((later : List Place) → places.new.items ++ later ≡ places.old.items ++ with_place text.now given at later) }
{
    let Some(name) = given else {
        return Ok(());
    };
    let line = line_of(text, at);
    places.push(Place { name, line })?;
    Ok(())
}

// Returns the line of a name.
pub(crate) fn line_of_name(places: &[Place], name: &[u8]) -> Option<usize>
    ensures { result ≡ line_of_name places.now name.now }
{
    let mut rest = places;
    'places: while let Some((place, others)) = rest.split_first() {
        if place.name.bytes() == name {
            return Some(place.line);
        }
        rest = others;
    }
    None
}

// Returns the name with which a text begins: that of a label, without its indices.
fn name_before(bytes: &[u8]) -> &[u8]
    ensures { result.now ≡ name_before bytes.now }
{
    split_front(ByteKind::NameByte, bytes).0
}

// Returns the line of the name that comes after a word, if the text begins with the word.
fn line_after(places: &[Place], word: &[u8], bytes: &[u8]) -> Option<usize>
    ensures { result ≡ line_after places.now word.now bytes.now }
{
    if !bytes.starts_with(word) {
        return None;
    }
    line_of_name(places, name_before(bytes.split_at(word.len()).1))
}

// Returns the line of the scope, nursery or event that is named at the start of this text.
fn line_here(places: &[Place], bytes: &[u8]) -> Option<usize>
    ensures { result ≡ line_here places.now bytes.now }
{
    line_after(places, b" scope ", bytes)
        .or(line_after(places, b" nursery ", bytes))
        .or(line_after(places, b" event ", bytes))
}

// Returns the line of the first scope, nursery or event that a sentence names.
fn line_in(places: &[Place], sentence: &[u8]) -> Option<usize>
    ensures { result ≡ line_in places.now sentence.now }
{
    let mut rest = sentence;
    'bytes: while let Some((_, others)) = rest.split_first() {
        if let Some(line) = line_here(places, rest) {
            return Some(line);
        }
        rest = others;
    }
    None
}

// Returns the line of what a sentence about a task is about.
pub(crate) fn line_of_sentence(places: &[Place], task: &[u8], sentence: &[u8]) -> Option<usize>
    ensures { result ≡ line_of_sentence places.now task.now sentence.now }
{
    let line = line_of_name(places, name_before(task));
    if sentence.starts_with(b"starts") {
        return line;
    }
    line_in(places, sentence).or(line)
}
