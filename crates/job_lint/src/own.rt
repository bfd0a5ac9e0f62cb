ghost use Rattle.std.specs.Prelude.{◌≡◌, OnOk};
ghost use Rattle.job_tree.specs.Blocks.{step_of};
ghost use Rattle.job_lint.specs.Opened.{names_opened};
ghost use Rattle.job_lint.specs.Warnings.{own_warning, scope_warning, nursery_warning, event_warning, is_cancelled, is_idle, late_cancel, endless_shield, idle_handler, can_raise, is_nursery_cancelled, never_ends_well, with_warning, warnings_at};
ghost use Rattle.job_lint.specs.Adding.{Adds};

use crate::around::Around;
use crate::opened::{Opened, is_opened};
use crate::sharing::object_warning;
use crate::sought::{Sought, has, is_never};
use crate::warning::{Lint, Warning, warn_if};
use job_tree::{Body, Deadline, Name, Step};
use std::alloc::AllocError;

// Appends the warnings at the keyword of a step. `unreachable` says whether the step is unreachable.
pub(crate) fn push_own(
    step: &Step,
    unreachable: bool,
    around: Around,
    opened: &Opened,
    at: usize,
    found: &mut Vec<Warning>,
) -> Result<(), AllocError>
    ensures { OnOk result (Adds found.old.items found.new.items
        (warnings_at unreachable around (names_opened opened.now) at (step_of step.now))) }
{
    push_found(warn_if(unreachable, at, Lint::Unreachable, None), found)?;
    push_found(own_warning(step, around, opened, at), found)?;
    Ok(())
}

// Appends a warning, if there is one.
pub(crate) fn push_found(
    warning: Option<Warning>,
    found: &mut Vec<Warning>,
) -> Result<(), AllocError>
    ensures { OnOk result (Adds found.old.items found.new.items (with_warning warning)) }
{
    let Some(Warning { at, lint, name }) = warning else {
        return Ok(());
    };
    found.push(Warning { at, lint, name })?;
    Ok(())
}

// Returns whether the steps after this one in its block never run. It is not decided whether a `wait` ends, or a step that asks
// for something.
pub(crate) fn never_ends_well(step: &Step) -> bool
    ensures { result ≡ never_ends_well (step_of step.now) }
{
    match step {
        Step::Forever => true,
        Step::Raise(_) => true,
        _ => false,
    }
}

// Returns the warning at the keyword of a step, except the one that the step is unreachable.
fn own_warning(step: &Step, around: Around, opened: &Opened, at: usize) -> Option<Warning>
    ensures { result ≡ own_warning around (names_opened opened.now) at (step_of step.now) }
{
    match step {
        Step::Sleep(_) => warn_if(around.exposed, at, Lint::ExposedWait, None),
        Step::Checkpoint => warn_if(around.exposed, at, Lint::ExposedWait, None),
        Step::Forever => warn_if(around.exposed, at, Lint::ExposedWait, None),
        Step::Pace(_) => warn_if(around.exposed, at, Lint::ExposedWait, None),
        Step::Wait(_) => warn_if(around.exposed, at, Lint::ExposedWait, None),
        Step::Ask { .. } => warn_if(around.exposed, at, Lint::ExposedWait, None),
        Step::Raise(_) => warn_if(around.cleanup, at, Lint::RaiseInCleanup, None),
        Step::Cancel(name) => late_cancel(around, opened, name, at),
        Step::Scope {
            name,
            deadline,
            shield,
            fail,
            body,
        } => scope_warning(around, *name, *deadline, *shield, *fail, body, at),
        Step::Nursery {
            name,
            deadline,
            shield,
            body,
        } => nursery_warning(*name, *deadline, *shield, body, at),
        Step::Event { name, body } => event_warning(*name, body, at),
        Step::Object { name, kind, body } => object_warning(*name, *kind, body, at),
        _ => None,
    }
}

// Returns the warning at a scope.
fn scope_warning(
    around: Around,
    name: Name,
    deadline: Deadline,
    shield: bool,
    fail: bool,
    body: &Body,
    at: usize,
) -> Option<Warning>
    ensures { result ≡ scope_warning around name deadline shield fail body.now at }
{
    if !is_never(deadline) {
        None
    } else if shield {
        endless_shield(name, body, at)
    } else {
        warn_if(
            is_idle(around, name, fail, body),
            at,
            Lint::IdleScope,
            Some(name),
        )
    }
}

// Returns whether nothing cancels a scope with neither a deadline nor a shield, and, unless it has `fail`, nothing else can end
// it early either.
fn is_idle(around: Around, name: Name, fail: bool, body: &Body) -> bool
    ensures { result ≡ is_idle around name fail body.now }
{
    let steps = body.as_slice();
    !has(steps, &Sought::Cancel(name))
        && (fail || !(around.cancellable || has(steps, &Sought::Failure)))
}

// Returns whether something can cancel a scope or nursery: its deadline, or a `cancel` in it that names it.
pub(crate) fn is_cancelled(name: Name, deadline: Deadline, body: &Body) -> bool
    ensures { result ≡ is_cancelled name deadline body.now }
{
    !is_never(deadline) || has(body.as_slice(), &Sought::Cancel(name))
}

// Returns the same of a nursery, which a member that ends with an exception cancels too.
pub(crate) fn is_nursery_cancelled(name: Name, deadline: Deadline, body: &Body) -> bool
    ensures { result ≡ is_nursery_cancelled name deadline body.now }
{
    is_cancelled(name, deadline, body) || has(body.as_slice(), &Sought::Failure)
}

// Returns the warning at a `cancel`.
fn late_cancel(around: Around, opened: &Opened, name: &Name, at: usize) -> Option<Warning>
    ensures { result ≡ late_cancel around (names_opened opened.now) name.now at }
{
    let is_late = around.late && !is_opened(name, opened);
    warn_if(is_late, at, Lint::LateCancel, Some(*name))
}

// Returns the warning at a nursery.
fn nursery_warning(
    name: Name,
    deadline: Deadline,
    shield: bool,
    body: &Body,
    at: usize,
) -> Option<Warning>
    ensures { result ≡ nursery_warning name deadline shield body.now at }
{
    if is_never(deadline) && shield {
        endless_shield(name, body, at)
    } else {
        None
    }
}

// Returns the warning at an event.
fn event_warning(name: Name, body: &Body, at: usize) -> Option<Warning>
    ensures { result ≡ event_warning name body.now at }
{
    if has(body.as_slice(), &Sought::Set(name)) {
        let is_unawaited = !has(body.as_slice(), &Sought::Await(name));
        warn_if(is_unawaited, at, Lint::UnawaitedEvent, Some(name))
    } else {
        warn_if(true, at, Lint::UnsetEvent, Some(name))
    }
}

// Returns the warning at a shield without a deadline.
fn endless_shield(name: Name, body: &Body, at: usize) -> Option<Warning>
    ensures { result ≡ endless_shield name body.now at }
{
    let waits = has(body.as_slice(), &Sought::Wait);
    warn_if(waits, at, Lint::ShieldWithoutDeadline, Some(name))
}

// Returns the warning at a handler, given its name and the block of its `try`.
pub(crate) fn idle_handler(name: Name, body: &Body, at: usize) -> Option<Warning>
    ensures { result ≡ idle_handler name body.now at }
{
    let is_idle = !can_raise(name, body);
    warn_if(is_idle, at, Lint::IdleHandler, Some(name))
}

// Returns whether something in a block can raise exceptions with this name.
fn can_raise(name: Name, body: &Body) -> bool
    ensures { result ≡ can_raise name body.now }
{
    let steps = body.as_slice();
    let is_too_slow = name.bytes() == b"TooSlow".as_slice();
    has(steps, &Sought::Raise(name)) || (is_too_slow && has(steps, &Sought::Fail))
}
