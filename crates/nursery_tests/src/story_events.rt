//! Events of stories, of which several tests make small stories.
//!
//! A story is kept in one vector, and each function adds one event to it: a proof is long where many values that own memory are
//! kept side by side.

use exceptions::Label;
use job_story::{CancelledFrom, Event, Happening, Kind, Range, What};
use job_tree::Name;
use std::alloc::{AllocError, Global};
use std::test::Fail;

// The name of these bytes.
pub(crate) fn word(text: &[u8]) -> Result<Name, Fail> {
    match Name::new(text) {
        Some(name) => Ok(name),
        None => Err("no word")?,
    }
}

// The label of that name, with no index.
pub(crate) fn label(alloc: Global, text: &[u8]) -> Result<Label, Fail> {
    Ok(Label::new(alloc, word(text)?))
}

// Appends an event of the task `m` in this moment.
pub(crate) fn push_event(
    alloc: Global,
    events: &mut Vec<Event>,
    moment: u64,
    what: What,
) -> Result<(), Fail> {
    let task = label(alloc, b"m")?;
    events.push(Event {
        tick: moment,
        task,
        what,
    })?;
    Ok(())
}

// Appends that the root starts in this moment, with an empty input.
pub(crate) fn push_start(alloc: Global, events: &mut Vec<Event>, moment: u64) -> Result<(), Fail> {
    let part = Range { from: 0, to: 0 };
    push_event(alloc, events, moment, What::Starts { home: None, part })
}

// Appends that a task enters the scope `s` in this moment.
pub(crate) fn push_entry(alloc: Global, events: &mut Vec<Event>, moment: u64) -> Result<(), Fail> {
    let label = label(alloc, b"s")?;
    let enters = Happening::Enters {
        kind: Kind::Scope { fail: false },
        label,
        deadline: None,
        shield: false,
    };
    push_event(alloc, events, moment, What::Happens(enters))
}

// The events of a story in their order.
pub(crate) fn walk<'e>(alloc: Global, events: &'e [Event]) -> Result<Vec<&'e Event>, AllocError> {
    let mut walked = Vec::new(alloc);
    for event in events {
        walked.push(event)?;
    }
    Ok(walked)
}

// A table in which the scope `s` is cancelled from this moment on.
pub(crate) fn cancelled_from_of(alloc: Global, from: u64) -> Result<CancelledFrom, Fail> {
    let label = label(alloc, b"s")?;
    let mut cancelled_from = CancelledFrom::new(alloc);
    cancelled_from.set(label, Some(from))?;
    Ok(cancelled_from)
}
