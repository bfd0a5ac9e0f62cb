//! What a line says of other tasks.
ghost use Rattle.std.specs.Prelude.{◌≡◌, ◌++◌, Some, OnOk, codes, decimal};
ghost use Rattle.std.specs.Option.{option_map};
ghost use Rattle.exceptions.specs.Texts.{label_text};
ghost use Rattle.job_story.specs.Notes.{all_in_use};
ghost use Rattle.job_story.specs.Sentences.{later_place_text, note_text, ordinal_text, place_text};
ghost use Rattle.story_waits.specs.Noted.{note_in};

use basics::push_number;
use exceptions::{Label, push_label};
use std::alloc::AllocError;
use story_waits::Note;

// Appends what is said of other tasks, if anything is.
pub(crate) fn push_note(out: &mut Vec<u8>, note: Option<Note<'_>>) -> Result<(), AllocError>
    ensures { OnOk result (out.new.items ≡ out.old.items ++ note_text (option_map note_in note.entry)) }
{
    let Some(note) = note else {
        return Ok(());
    };
    match note {
        Note::AllInUse { tokens, place } => push_in_use(out, tokens, place),
        Note::NoRoom { place } => push_waiting_place(out, b" (full", place),
        Note::NothingThere { place } => push_waiting_place(out, b" (empty", place),
        Note::GivenBackBy(task) => push_by(out, b" (given back by ", task),
        Note::SentBy(task) => push_by(out, b" (sent by ", task),
        Note::ClosedBy(task) => push_by(out, b" (closed by ", task),
    }
}

// Appends how many tokens are in use, and a place in the queue.
fn push_in_use(out: &mut Vec<u8>, tokens: u64, place: usize) -> Result<(), AllocError>
    ensures { OnOk result (out.new.items ≡ out.old.items ++ note_text (Some (all_in_use tokens place))) }
{
    push_tokens(out, tokens)?;
    push_place(out, place)?;
    out.extend_from_slice(b")")
}

// Appends that so many tokens are all in use.
fn push_tokens(out: &mut Vec<u8>, tokens: u64) -> Result<(), AllocError>
    ensures { OnOk result (out.new.items
        ≡ out.old.items ++ (codes " (" ++ decimal tokens ++ codes " of " ++ decimal tokens ++ codes " in use, ")) }
{
    out.extend_from_slice(b" (")?;
    push_number(out, tokens)?;
    out.extend_from_slice(b" of ")?;
    push_number(out, tokens)?;
    out.extend_from_slice(b" in use, ")
}

// Appends some words and a place in the queue of a channel, unless it is the first, and closes the bracket.
fn push_waiting_place(out: &mut Vec<u8>, words: &[u8], place: usize) -> Result<(), AllocError>
    ensures { OnOk result (out.new.items ≡ out.old.items ++ (words.now ++ later_place_text place ++ codes ")")) }
{
    out.extend_from_slice(words)?;
    push_later_place(out, place)?;
    out.extend_from_slice(b")")
}

// Appends a place in a queue, unless it is the first.
fn push_later_place(out: &mut Vec<u8>, place: usize) -> Result<(), AllocError>
    ensures { OnOk result (out.new.items ≡ out.old.items ++ later_place_text place) }
{
    if place == 1 {
        return Ok(());
    }
    out.extend_from_slice(b", ")?;
    push_place(out, place)
}

// Appends a place in a queue.
fn push_place(out: &mut Vec<u8>, place: usize) -> Result<(), AllocError>
    ensures { OnOk result (out.new.items ≡ out.old.items ++ place_text place) }
{
    push_ordinal(out, place)?;
    out.extend_from_slice(b" in the queue")
}

// Appends the word for a place, or its number.
fn push_ordinal(out: &mut Vec<u8>, place: usize) -> Result<(), AllocError>
    ensures { OnOk result (out.new.items ≡ out.old.items ++ ordinal_text place) }
{
    match place {
        1 => out.extend_from_slice(b"first"),
        2 => out.extend_from_slice(b"second"),
        3 => out.extend_from_slice(b"third"),
        4 => out.extend_from_slice(b"fourth"),
        5 => out.extend_from_slice(b"fifth"),
        6 => out.extend_from_slice(b"sixth"),
        7 => out.extend_from_slice(b"seventh"),
        8 => out.extend_from_slice(b"eighth"),
        9 => out.extend_from_slice(b"ninth"),
        10 => out.extend_from_slice(b"tenth"),
        _ => {
            out.extend_from_slice(b"number ")?;
            push_number(out, place as u64)
        }
    }
}

// Appends some words and a task, and closes the bracket.
fn push_by(out: &mut Vec<u8>, words: &[u8], task: &Label) -> Result<(), AllocError>
    ensures { OnOk result (out.new.items ≡ out.old.items ++ (words.now ++ label_text task.now ++ codes ")")) }
{
    out.extend_from_slice(words)?;
    push_label(out, task)?;
    out.extend_from_slice(b")")
}
