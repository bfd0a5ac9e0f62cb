//! Sentences about limiters and channels.
ghost use Rattle.std.specs.Prelude.{◌≡◌, ◌++◌, ◌==◌, if◌then◌else◌, OnOk, codes, decimal};
ghost use Rattle.std.specs.Option.{option_map};
ghost use Rattle.exceptions.specs.Texts.{label_text};
ghost use Rattle.job_meaning.specs.Clocks.{tick_of};
ghost use Rattle.job_story.specs.Held.{asked_of};
ghost use Rattle.job_story.specs.Sentences.{ask_text, at_once_text, close_text, closed_text, gets_text, object_text};

use crate::sentences::{push_labelled, push_since};
use basics::push_number;
use exceptions::{Label, push_label};
use job_meaning::Clock;
use job_story::Asked;
use job_tree::{Ask, ObjectKind};
use std::alloc::AllocError;

// Appends what a task asks of a limiter or channel.
fn push_ask(out: &mut Vec<u8>, ask: Ask, object: &Label) -> Result<(), AllocError>
    ensures { OnOk result (out.new.items ≡ out.old.items ++ ask_text ask object.now) }
{
    match ask {
        Ask::Acquire => push_labelled(out, b"for a token of ", object),
        Ask::Send => push_labelled(out, b"to send to ", object),
        Ask::Receive => push_labelled(out, b"to receive from ", object),
    }
}

// Appends some words, and what a task asks after them.
pub(crate) fn push_asking(
    out: &mut Vec<u8>,
    words: &[u8],
    ask: Ask,
    object: &Label,
) -> Result<(), AllocError>
    ensures { OnOk result (out.new.items ≡ out.old.items ++ (words.now ++ ask_text ask object.now)) }
{
    out.extend_from_slice(words)?;
    push_ask(out, ask, object)
}

// Appends some words, what a task asks, and since when it waits for that.
pub(crate) fn push_asked(
    out: &mut Vec<u8>,
    words: &[u8],
    ask: Ask,
    object: &Label,
    clock: Clock,
    since: u64,
) -> Result<(), AllocError>
    ensures { OnOk result (out.new.items
        ≡ out.old.items ++ (words.now ++ ask_text ask object.now ++ codes " since " ++ decimal (tick_of clock since))) }
{
    push_asking(out, words, ask, object)?;
    push_since(out, clock, since)
}

// Appends that a task enters a limiter or channel.
pub(crate) fn push_enters_object(
    out: &mut Vec<u8>,
    kind: ObjectKind,
    label: &Label,
) -> Result<(), AllocError>
    ensures { OnOk result (out.new.items ≡ out.old.items ++ (codes "enters " ++ object_text kind label.now)) }
{
    out.extend_from_slice(b"enters ")?;
    match kind {
        ObjectKind::Limiter(tokens) => {
            push_labelled(out, b"limiter ", label)?;
            push_size(out, tokens, b" token)", b" tokens)")
        }
        ObjectKind::Channel(places) => {
            push_labelled(out, b"channel ", label)?;
            push_size(out, places, b" place)", b" places)")
        }
    }
}

// Appends a number in a bracket, with the word for one, or for another number.
fn push_size(out: &mut Vec<u8>, size: u64, one: &[u8], many: &[u8]) -> Result<(), AllocError>
    ensures { OnOk result (out.new.items
        ≡ out.old.items ++ (codes " (" ++ decimal size ++ (if size == 1 then one.now else many.now))) }
{
    out.extend_from_slice(b" (")?;
    push_number(out, size)?;
    out.extend_from_slice(if size == 1 { one } else { many })
}

// Appends that a task is granted what it asked.
pub(crate) fn push_gets(
    out: &mut Vec<u8>,
    ask: Ask,
    object: &Label,
    at_once: &Option<Asked>,
) -> Result<(), AllocError>
    ensures { OnOk result (out.new.items ≡ out.old.items ++ gets_text ask object.now (option_map asked_of at_once.now)) }
{
    match ask {
        Ask::Acquire => {
            push_labelled(out, b"gets a token of ", object)?;
            push_at_once(out, at_once)
        }
        Ask::Send => push_labelled(out, b"sends to ", object),
        Ask::Receive => push_labelled(out, b"receives from ", object),
    }
}

// Appends that a task did not wait for a token.
fn push_at_once(out: &mut Vec<u8>, at_once: &Option<Asked>) -> Result<(), AllocError>
    ensures { OnOk result (out.new.items ≡ out.old.items ++ at_once_text (option_map asked_of at_once.now)) }
{
    match at_once {
        Some(_) => out.extend_from_slice(b" at once"),
        None => Ok(()),
    }
}

// Appends that a task finds a channel closed.
pub(crate) fn push_closed(out: &mut Vec<u8>, ask: Ask, object: &Label) -> Result<(), AllocError>
    ensures { OnOk result (out.new.items ≡ out.old.items ++ closed_text ask object.now) }
{
    push_labelled(out, b"finds ", object)?;
    match ask {
        Ask::Acquire => out.extend_from_slice(b" closed"),
        Ask::Send => out.extend_from_slice(b" closed"),
        Ask::Receive => out.extend_from_slice(b" closed and empty"),
    }
}

// Appends that a task has waited as long as `forever` lasts.
pub(crate) fn push_deadlocks(out: &mut Vec<u8>, ask: Ask, object: &Label) -> Result<(), AllocError>
    ensures { OnOk result (out.new.items
        ≡ out.old.items ++ (codes "has waited " ++ ask_text ask object.now ++ codes " as long as forever, and raises Deadlock")) }
{
    push_asking(out, b"has waited ", ask, object)?;
    out.extend_from_slice(b" as long as forever, and raises Deadlock")
}

// Appends that the token of a task comes back.
pub(crate) fn push_token_back(out: &mut Vec<u8>, object: &Label) -> Result<(), AllocError>
    ensures { OnOk result (out.new.items ≡ out.old.items ++ (codes "gives its token of " ++ label_text object.now ++ codes " back")) }
{
    push_labelled(out, b"gives its token of ", object)?;
    out.extend_from_slice(b" back")
}

// Appends which channel a task closes.
pub(crate) fn push_closes(out: &mut Vec<u8>, object: &Option<Label>) -> Result<(), AllocError>
    ensures { OnOk result (out.new.items ≡ out.old.items ++ close_text object.now) }
{
    match object {
        Some(label) => push_labelled(out, b"closes ", label),
        None => Ok(()),
    }
}
