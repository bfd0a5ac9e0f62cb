ghost use Rattle.std.specs.Prelude.{◌≡◌};
ghost use Rattle.std.specs.Option.{option_copied};
ghost use Rattle.exceptions.specs.Held.{exc_of, excs_of};
ghost use Rattle.job_story.specs.Held.{what_of};
ghost use Rattle.race_text.specs.Copies.{is_failure, some_failure, cancels_some, acts, concerns, contended, is_same_object, may_meet, used};

use exceptions::{Exc, Label};
use job_story::{Happening, What};
use job_tree::Ask;

// Returns whether an event cancels something: a scope or nursery by a `cancel`, or the task's nursery because the task
// ends with an exception other than `Cancelled`.
fn cancels_some(what: &What) -> bool
    ensures { result ≡ cancels_some (what_of what.now) }
{
    match what {
        What::Happens(Happening::Cancels { .. }) => true,
        What::Ends { exc: Some(exc), .. } => is_failure(exc),
        _ => false,
    }
}

// Returns whether an event is neither a start nor a cancellation.
fn acts(what: &What) -> bool
    ensures { result ≡ acts (what_of what.now) }
{
    match what {
        What::Starts { .. } => false,
        What::Happens(Happening::IsCancelled { .. }) => false,
        _ => true,
    }
}

// Returns whether an event may concern another one: it cancels something, or something is done to a limiter or channel that
// another task might have done first.
pub(crate) fn may_meet(what: &What) -> bool
    ensures { result ≡ may_meet (what_of what.now) }
{
    cancels_some(what) || contended(what).is_some()
}

// Returns whether the first of two events may change what the second one is, if it is a little earlier or later.
pub(crate) fn concerns(one: &What, other: &What) -> bool
    ensures { result ≡ concerns (what_of one.now) (what_of other.now) }
{
    (cancels_some(one) && acts(other)) || is_same_object(contended(one), used(other))
}

// Returns the limiter or channel at which a task does what another one might have done first: it waits in a queue, uses a
// channel, or closes it.
fn contended(what: &What) -> Option<&Label>
    ensures { option_copied result ≡ contended (what_of what.now) }
{
    let What::Happens(happening) = what else {
        return None;
    };
    match happening {
        Happening::Queues { object, .. } => Some(object),
        Happening::Gets {
            ask,
            object,
            at_once,
        } => match ask {
            Ask::Acquire => None,
            Ask::Send | Ask::Receive if at_once.is_some() => Some(object),
            Ask::Send | Ask::Receive => None,
        },
        Happening::ClosesChannel { object } => object.as_ref(),
        _ => None,
    }
}

// Returns the limiter or channel that a task asks for something, or closes.
fn used(what: &What) -> Option<&Label>
    ensures { option_copied result ≡ used (what_of what.now) }
{
    let What::Happens(happening) = what else {
        return None;
    };
    match happening {
        Happening::Queues { object, .. } => Some(object),
        Happening::Gets {
            object,
            at_once: Some(_),
            ..
        } => Some(object),
        Happening::FindsClosed {
            object,
            at_once: Some(_),
            ..
        } => Some(object),
        Happening::ClosesChannel { object } => object.as_ref(),
        _ => None,
    }
}

// Returns whether these are the same limiter or channel.
fn is_same_object(one: Option<&Label>, other: Option<&Label>) -> bool
    ensures { result ≡ is_same_object (option_copied one.entry) (option_copied other.entry) }
{
    let Some(one) = one else {
        return false;
    };
    match other {
        Some(other) => *one == *other,
        None => false,
    }
}

// Returns whether an exception is or contains one other than `Cancelled`.
#[cycle(leaves)]
fn is_failure(exc: &Exc) -> bool
    ensures { result ≡ is_failure (exc_of exc.now) }
{
    match exc {
        Exc::Cancelled => false,
        Exc::Raised { .. } | Exc::TooSlow { .. } => true,
        Exc::Group { parts, .. } => some_failure(parts.as_slice()),
    }
}

// Returns whether one of the parts of a group is or contains such an exception.
#[cycle(leaves)]
fn some_failure(parts: &[Exc]) -> bool
    ensures { result ≡ some_failure (excs_of parts.now) }
{
    let mut rest = parts;
    'parts: while let Some((part, others)) = rest.split_first() {
        if is_failure(part) {
            return true;
        }
        rest = others;
    }
    false
}
