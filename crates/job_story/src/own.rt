ghost use Rattle.std.specs.Prelude.{◌≡◌, ◌≤◌, OnOk, reverse};
ghost use Rattle.std.specs.List.{list_any};
ghost use Rattle.exceptions.specs.Labels.{same_label};
ghost use Rattle.job_meaning.specs.Walk.{from_for, with_own};
ghost use Rattle.job_story.specs.Held.{during_of};
ghost use Rattle.job_story.specs.Tell.{during_sleep};
ghost use Rattle.job_meaning.specs.Clocks.{gives_up_at};

use crate::During;
use cancel_scopes::earlier;
use exceptions::Label;
use job_meaning::Clock;
use std::alloc::AllocError;

// Returns the moment from which a scope or nursery with this label is cancelled, for a task that has cancelled some labels itself
// in this moment, where others see it cancelled from `from` on.
pub(crate) fn from_for(
    cancelled: &[Label],
    moment: u64,
    label: &Label,
    from: Option<u64>,
) -> Option<u64>
    ensures { result ≡ from_for (reverse cancelled.now) moment label.now from }
{
    if is_among(label, cancelled) {
        earlier(from, Some(moment))
    } else {
        from
    }
}

// Returns whether a label is among some.
fn is_among(label: &Label, labels: &[Label]) -> bool
    ensures { result ≡ list_any (λ other. same_label label.now other) labels.now }
{
    labels.iter().any(|other| *label == *other)
}

// Returns the moment in which a sleep of `ticks` ticks ends in which a cancellation is seen at once. A checkpoint that is
// cancelled takes two rounds.
pub(crate) fn gives_up_at(clock: Clock, ticks: u64, moment: u64) -> u64
    requires { moment ≤ 4611686018427387904 }
    ensures { result ≡ gives_up_at clock ticks moment }
{
    match clock {
        Clock::ByTicks => moment,
        Clock::ByRounds => match ticks {
            0 => moment + 2,
            _ => moment + 1,
        },
    }
}

// Returns what a task does that is cancelled in a sleep of `ticks` ticks from a moment on. A sleep of no tick is a checkpoint.
pub(crate) fn during_sleep(ticks: u64, moment: u64) -> During
    ensures { during_of result ≡ during_sleep ticks moment }
{
    match ticks {
        0 => During::Checkpoint,
        _ => During::Sleeping { since: moment },
    }
}

// Adds what a task cancels or sets to what it has cancelled or set itself in this moment, where a tick has rounds.
pub(crate) fn add_own(
    clock: Clock,
    label: Option<Label>,
    cancelled: &mut Vec<Label>,
) -> Result<(), AllocError>
    ensures { OnOk result (reverse cancelled.new.items ≡ with_own clock label (reverse cancelled.old.items)) }
{
    let Some(label) = label else {
        return Ok(());
    };
    match clock {
        Clock::ByTicks => Ok(()),
        Clock::ByRounds => {
            cancelled.push(label)?;
            Ok(())
        }
    }
}
