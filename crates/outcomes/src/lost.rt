ghost use Rattle.std.specs.Prelude.{◌≡◌, map};
ghost use Rattle.exceptions.specs.Held.{exc_of, excs_of};
ghost use Rattle.job_story.specs.Held.{what_of};
ghost use Rattle.story_index.specs.Seen.{event_in};
ghost use Rattle.outcomes.specs.Notes.{has_leaf, some_leaf, raises_it, handles_it, escapes, replaces_it, some_event, is_lost, is_lost_so_far, is_raised};

use exceptions::Exc;
use job_story::{Event, Happening, What};
use job_tree::Name;

/// Returns whether an exception with this name is lost in a story with these events: a `raise` step with this name is among
/// them, no handler handles an exception with this name, and the root task does not end with one. Exceptions are distinguished
/// only by their names. So if several exceptions have this name, the result is `false` as soon as one of them is handled or is
/// part of the outcome of the root task, even if another one is lost.
pub fn is_lost(events: &[&Event], name: Name) -> bool
    ensures { result ≡ is_lost name (map event_in events.now) }
{
    is_raised(events, name) && !is_handled(events, name) && !has_escaped(events, name)
}

/// Returns whether an exception with this name is lost by the events of a job that has not ended: a `raise` step with this name
/// is among them, no handler handles an exception with this name, and the exception of a cleanup replaced one that contains it,
/// and does not contain it. An exception that a task or a nursery still holds is not lost.
pub fn is_lost_so_far(events: &[&Event], name: Name) -> bool
    ensures { result ≡ is_lost_so_far name (map event_in events.now) }
{
    is_raised(events, name) && !is_handled(events, name) && is_replaced(events, name)
}

/// Returns whether a `raise` step with this name is among these events. An exception that a `need` raises does not count.
pub fn is_raised(events: &[&Event], name: Name) -> bool
    ensures { result ≡ is_raised name (map event_in events.now) }
{
    'events: for event in events {
        if raises_it(&event.what, name) {
            return true;
        }
    }
    false
}

// Returns whether some handler handles an exception with this name.
fn is_handled(events: &[&Event], name: Name) -> bool
    ensures { result ≡ some_event (handles_it name) (map event_in events.now) }
{
    'events: for event in events {
        if handles_it(&event.what, name) {
            return true;
        }
    }
    false
}

// Returns whether the exception of a cleanup replaces an exception with this name.
fn is_replaced(events: &[&Event], name: Name) -> bool
    ensures { result ≡ some_event (replaces_it name) (map event_in events.now) }
{
    'events: for event in events {
        if replaces_it(&event.what, name) {
            return true;
        }
    }
    false
}

// Returns whether the root task ends with an exception with this name.
fn has_escaped(events: &[&Event], name: Name) -> bool
    ensures { result ≡ some_event (escapes name) (map event_in events.now) }
{
    'events: for event in events {
        if escapes(&event.what, name) {
            return true;
        }
    }
    false
}

// Returns whether an event is a `raise` step with this name.
fn raises_it(what: &What, name: Name) -> bool
    ensures { result ≡ raises_it name (what_of what.now) }
{
    match what {
        What::Happens(Happening::Raises { name: other }) => *other == name,
        _ => false,
    }
}

// Returns whether an event is that a handler handles an exception with this name.
fn handles_it(what: &What, name: Name) -> bool
    ensures { result ≡ handles_it name (what_of what.now) }
{
    match what {
        What::Happens(Happening::Handles { matched, .. }) => has_leaf(matched, name),
        _ => false,
    }
}

// Returns whether an event is that the exception of a cleanup replaces an exception with this name, and is none itself.
fn replaces_it(what: &What, name: Name) -> bool
    ensures { result ≡ replaces_it name (what_of what.now) }
{
    match what {
        What::Happens(Happening::Replaces { lost, fresh }) => {
            has_leaf(lost, name) && !has_leaf(fresh, name)
        }
        _ => false,
    }
}

// Returns whether an event is that the root task ends with an exception with this name.
fn escapes(what: &What, name: Name) -> bool
    ensures { result ≡ escapes name (what_of what.now) }
{
    match what {
        What::Ends {
            home: None,
            exc: Some(exc),
        } => has_leaf(exc, name),
        _ => false,
    }
}

// Returns whether an exception is or contains one with this name that a `raise` or a `need` made.
#[cycle(leaves)]
fn has_leaf(exc: &Exc, name: Name) -> bool
    ensures { result ≡ has_leaf name (exc_of exc.now) }
{
    match exc {
        Exc::Raised { name: other, .. } => *other == name,
        Exc::Cancelled | Exc::TooSlow { .. } => false,
        Exc::Group { parts, .. } => some_leaf(parts.as_slice(), name),
    }
}

// Returns whether one of the parts of a group is or contains such an exception.
#[cycle(leaves)]
fn some_leaf(parts: &[Exc], name: Name) -> bool
    ensures { result ≡ some_leaf name (excs_of parts.now) }
{
    let mut rest = parts;
    'parts: while let Some((part, others)) = rest.split_first() {
        if has_leaf(part, name) {
            return true;
        }
        rest = others;
    }
    false
}
