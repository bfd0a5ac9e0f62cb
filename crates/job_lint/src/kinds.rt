//! Which steps are of a kind that is sought.

ghost use Rattle.std.specs.Prelude.{◌≡◌};
ghost use Rattle.job_tree.specs.Blocks.{step_of};
ghost use Rattle.job_lint.specs.Seeking.{asks, awaits, can_fail, cancels, closed_raises, closes, fails, is_same, raises, sets, uses_channel, waits};

use job_tree::{Ask, Name, Step};

pub(crate) fn cancels(step: &Step, name: &Name) -> bool
    ensures { result ≡ cancels name.now (step_of step.now) }
{
    match step {
        Step::Cancel(other) => name == other,
        _ => false,
    }
}

pub(crate) fn raises(step: &Step, name: &Name) -> bool
    ensures { result ≡ raises name.now (step_of step.now) }
{
    match step {
        Step::Raise(other) => name == other,
        Step::Need { name: other, .. } => name == other,
        Step::Ask { ask, .. } => closed_raises(*ask, name),
        _ => false,
    }
}

// Returns whether a step that asks for this raises an exception with this name where the channel is closed.
fn closed_raises(ask: Ask, name: &Name) -> bool
    ensures { result ≡ closed_raises name.now ask }
{
    match ask {
        Ask::Acquire => false,
        Ask::Send => name.bytes() == b"ClosedResource".as_slice(),
        Ask::Receive => name.bytes() == b"EndOfChannel".as_slice(),
    }
}

pub(crate) fn fails(step: &Step) -> bool
    ensures { result ≡ fails (step_of step.now) }
{
    match step {
        Step::Scope { fail, .. } => *fail,
        _ => false,
    }
}

pub(crate) fn can_fail(step: &Step) -> bool
    ensures { result ≡ can_fail (step_of step.now) }
{
    match step {
        Step::Raise(_) => true,
        Step::Need { .. } => true,
        Step::Ask { ask, .. } => uses_channel(*ask),
        Step::Scope { fail, .. } => *fail,
        _ => false,
    }
}

// Returns whether a step that asks for this uses a channel, which may be closed.
fn uses_channel(ask: Ask) -> bool
    ensures { result ≡ uses_channel ask }
{
    match ask {
        Ask::Acquire => false,
        Ask::Send => true,
        Ask::Receive => true,
    }
}

pub(crate) fn waits(step: &Step) -> bool
    ensures { result ≡ waits (step_of step.now) }
{
    match step {
        Step::Sleep(_) => true,
        Step::Checkpoint => true,
        Step::Forever => true,
        Step::Pace(_) => true,
        Step::Wait(_) => true,
        Step::Ask { .. } => true,
        _ => false,
    }
}

pub(crate) fn sets(step: &Step, name: &Name) -> bool
    ensures { result ≡ sets name.now (step_of step.now) }
{
    match step {
        Step::Set(other) => name == other,
        _ => false,
    }
}

pub(crate) fn awaits(step: &Step, name: &Name) -> bool
    ensures { result ≡ awaits name.now (step_of step.now) }
{
    match step {
        Step::Wait(other) => name == other,
        _ => false,
    }
}

pub(crate) fn asks(step: &Step, ask: Ask, name: &Name) -> bool
    ensures { result ≡ asks ask name.now (step_of step.now) }
{
    match step {
        Step::Ask {
            name: other,
            ask: asked,
            ..
        } => is_same(ask, *asked) && name == other,
        _ => false,
    }
}

// Returns whether both ask for the same.
fn is_same(one: Ask, other: Ask) -> bool
    ensures { result ≡ is_same one other }
{
    match one {
        Ask::Acquire => matches!(other, Ask::Acquire),
        Ask::Send => matches!(other, Ask::Send),
        Ask::Receive => matches!(other, Ask::Receive),
    }
}

pub(crate) fn closes(step: &Step, name: &Name) -> bool
    ensures { result ≡ closes name.now (step_of step.now) }
{
    match step {
        Step::Close(other) => name == other,
        _ => false,
    }
}
