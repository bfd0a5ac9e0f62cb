ghost use Rattle.std.specs.Prelude.{◌≡◌};
ghost use Rattle.exceptions.specs.Exceptions as tree;
ghost use Rattle.exceptions.specs.Held.{exc_of};
ghost use Rattle.job_story.specs.Causes.{cause_by, cause_if, cause_in};
ghost use Rattle.job_story.specs.Events as story_events;
ghost use Rattle.job_story.specs.Held.{unboxed_exc, happening_of, what_of};
ghost use Rattle.job_story.specs.Story as story;
ghost use Rattle.job_meaning.specs.Log.{same_label};
ghost use Rattle.story_index.specs.Found.{cause_in_code, sign_at};

use crate::exc::is_cancellation;
use exceptions::{Exc, Label};
use job_story::{Event, Happening, What};

/// Why a scope or nursery is cancelled, or an event is set.
#[derive(Clone, Copy)]
pub enum Cause<'e> {
    /// Its deadline cancelled it.
    Deadline,
    /// A task cancelled it with a `cancel` step.
    Task {
        /// The label of the task.
        task: &'e Label,
        /// The moment of the step, which is the one before it is cancelled.
        tick: u64,
    },
    /// A task set it with a `set` step.
    Set {
        /// The label of the task.
        task: &'e Label,
        /// The moment of the step, which is the one before it is set.
        tick: u64,
    },
    /// A child of the nursery, or its own body, ended with an exception of which not every leaf is `Cancelled`.
    Failure {
        /// The label of the child that ended, or of the task that ran the body of the nursery.
        task: &'e Label,
        /// The moment of that end, which is the one before the nursery is cancelled.
        tick: u64,
    },
    /// A child of the nursery, or its own body, ended with an exception of which every leaf is `Cancelled`.
    Cancellation {
        /// The label of the child that ended, or of the task that ran the body of the nursery.
        task: &'e Label,
        /// The moment of that end, which is the one before the nursery is cancelled.
        tick: u64,
    },
}

// The scope or nursery that a happening cancels, or the event that it sets, and why.
#[derive(Clone, Copy)]
pub(crate) struct Sign<'e> {
    // The label of the scope, nursery or event.
    pub(crate) label: &'e Label,
    // Why it is cancelled, or set.
    pub(crate) cause: Cause<'e>,
}

// Returns what an event of a story cancels or sets, or `None` if it does neither.
pub(crate) fn sign_of<'e>(event: &'e Event) -> Option<Sign<'e>>
    ensures { (l : tree.Label) → sign_at l result ≡ cause_in l event.now.tick event.now.task (what_of event.now.what) }
{
    match &event.what {
        What::Starts { .. } => None,
        What::Happens(happening) => sign_in(happening, &event.task, event.tick),
        What::Ends { home, exc } => match home {
            Some(home) => sign_by(home, exc, &event.task, event.tick),
            None => None,
        },
    }
}

// Returns what a happening between the start and the end of a task cancels or sets.
fn sign_in<'e>(happening: &'e Happening, task: &'e Label, tick: u64) -> Option<Sign<'e>>
    ensures { (l : tree.Label) → sign_at l result ≡ cause_in l tick task.entry.now (story_events.happens (happening_of happening.now)) }
{
    match happening {
        Happening::Cancels { label } => sign_cancel(label, task, tick),
        Happening::Sets { label } => sign_set(label, task, tick),
        Happening::Waits { nursery, exc } => sign_by(nursery, exc, task, tick),
        _ => None,
    }
}

// Returns what a `cancel` step cancels, or `None` if no scope or nursery of its name encloses the task.
fn sign_cancel<'e>(label: &'e Option<Label>, task: &'e Label, tick: u64) -> Option<Sign<'e>>
    ensures { (l : tree.Label) → sign_at l result ≡ cause_in l tick task.entry.now (story_events.happens (story.cancels label.entry.now)) }
{
    let Some(label) = label else {
        return None;
    };
    Some(Sign {
        label,
        cause: Cause::Task { task, tick },
    })
}

// Returns what a `set` step sets, or `None` if no event of its name encloses the task.
fn sign_set<'e>(label: &'e Option<Label>, task: &'e Label, tick: u64) -> Option<Sign<'e>>
    ensures { (l : tree.Label) → sign_at l result ≡ cause_in l tick task.entry.now (story_events.happens (story.sets label.entry.now)) }
{
    let Some(label) = label else {
        return None;
    };
    Some(Sign {
        label,
        cause: Cause::Set { task, tick },
    })
}

// Returns that the nursery is cancelled if its child or body ended with an exception, or `None` if it ended without one.
#[tactic(auto, using(crate::proofs::SignLemmas::no_sign, crate::proofs::SignLemmas::some_sign))]
fn sign_by<'e>(
    label: &'e Label,
    exc: &Option<Box<Exc>>,
    task: &'e Label,
    tick: u64,
) -> Option<Sign<'e>>
    ensures { (l : tree.Label) → sign_at l result ≡ cause_if (same_label l label.entry.now) (unboxed_exc exc.now) task.entry.now tick }
{
    let Some(exc) = exc else {
        return None;
    };
    Some(Sign {
        label,
        cause: cause_of_end(exc, task, tick),
    })
}

// Returns the cause that the end of a task with an exception is.
fn cause_of_end<'e>(exc: &Exc, task: &'e Label, tick: u64) -> Cause<'e>
    ensures { cause_in_code result ≡ cause_by (exc_of exc.now) task.entry.now tick }
{
    if is_cancellation(exc) {
        Cause::Cancellation { task, tick }
    } else {
        Cause::Failure { task, tick }
    }
}
