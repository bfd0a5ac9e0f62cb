ghost use Rattle.std.specs.Prelude.{◌≡◌, ◌&&◌};
ghost use Rattle.job_tree.specs.Blocks.{step_of, steps_of, handled_of, cleaned_of};
ghost use Rattle.job_tree.specs.Tree.{object};
ghost use Rattle.job_lint.specs.declared.sought.Sought.TheVariants.{Nested};
ghost use Rattle.job_lint.specs.Seeking.{is_sought, is_entered, is_never, in_loop, in_task, held_if, with_grant, has, has_inside, handled_has, cleaned_has};

use crate::kinds::{asks, awaits, can_fail, cancels, closes, fails, raises, sets, waits};
use job_tree::{Ask, Body, Deadline, Handler, Name, ObjectKind, Step};

// What is sought in a block.
#[derive(Clone, Copy)]
pub(crate) enum Sought {
    // A `cancel` with this name.
    Cancel(Name),
    // A step that can raise an exception with this name: a `raise`, a `need`, a `send` or a `receive`.
    Raise(Name),
    // A scope with `fail`.
    Fail,
    // A step that can raise an exception: one of these, or a scope with `fail`.
    Failure,
    // A step that waits and is not in a scope or nursery with a deadline.
    Wait,
    // A `set` with this name.
    Set(Name),
    // A `wait` with this name.
    Await(Name),
    // A step that asks the limiter or channel with this name for this.
    Asking(Ask, Name),
    // A `close` with this name.
    Close(Name),
    // A `receive` with this name in a `repeat`.
    Looped(Name),
    // An `acquire` with the second name in one with the first, by the same task.
    Nested(Name, Name),
    // The same in an `acquire` with the first name.
    Held(Name, Name),
    // A limiter whose tokens and those of the limiter with this name are asked for in both orders.
    Inverted(Name),
}

// Returns whether a block has what is sought, at any depth.
#[cycle(seeking)]
pub(crate) fn has(steps: &[Step], sought: &Sought) -> bool
    ensures { result ≡ has sought.now (steps_of steps.now) }
{
    'steps: for step in steps {
        if is_sought(step, sought) || has_inside(step, sought) {
            return true;
        }
    }
    false
}

// Returns whether the blocks of a step have what is sought.
#[cycle(seeking)]
fn has_inside(step: &Step, sought: &Sought) -> bool
    ensures { result ≡ has_inside sought.now (step_of step.now) }
{
    match step {
        Step::Scope { deadline, body, .. } => {
            is_entered(sought, *deadline) && has(body.as_slice(), sought)
        }
        Step::Nursery { deadline, body, .. } => {
            is_entered(sought, *deadline) && has(body.as_slice(), sought)
        }
        Step::Ask { name, ask, body } => has(body.as_slice(), &with_grant(sought, *ask, name)),
        Step::Event { body, .. } => has(body.as_slice(), sought),
        Step::Object { name, kind, body } => object_has(name, *kind, body, sought),
        Step::Start { body, .. } => has(body.as_slice(), &in_task(sought)),
        Step::Repeat { body, .. } => has(body.as_slice(), &in_loop(sought)),
        Step::Try {
            body,
            handler,
            cleanup,
        } => {
            has(body.as_slice(), sought)
                || (handled_has(handler, sought) || cleaned_has(cleanup, sought))
        }
        _ => false,
    }
}

// Returns whether the block of a limiter or channel has what is sought.
#[cycle(seeking)]
fn object_has(name: &Name, kind: ObjectKind, body: &Body, sought: &Sought) -> bool
    ensures { result ≡ has_inside sought.now (object name.now kind body.now) }
{
    let steps = body.as_slice();
    match sought {
        Sought::Inverted(outer) => match kind {
            ObjectKind::Limiter(_) => is_inverted(outer, name, steps) || has(steps, sought),
            ObjectKind::Channel(_) => has(steps, sought),
        },
        _ => has(steps, sought),
    }
}

// Returns whether tokens of two limiters are asked for in both orders, each while one of the other is held.
#[cycle(seeking)]
fn is_inverted(outer: &Name, inner: &Name, steps: &[Step]) -> bool
    ensures { result ≡ (has (Nested outer.now inner.now) (steps_of steps.now) && has (Nested inner.now outer.now) (steps_of steps.now)) }
{
    has(steps, &Sought::Nested(*outer, *inner)) && has(steps, &Sought::Nested(*inner, *outer))
}

#[cycle(seeking)]
fn handled_has(handler: &Option<Handler>, sought: &Sought) -> bool
    ensures { result ≡ handled_has sought.now (handled_of handler.now) }
{
    match handler {
        Some(handler) => has(handler.body.as_slice(), sought),
        None => false,
    }
}

#[cycle(seeking)]
fn cleaned_has(cleanup: &Option<Body>, sought: &Sought) -> bool
    ensures { result ≡ cleaned_has sought.now (cleaned_of cleanup.now) }
{
    match cleanup {
        Some(body) => has(body.as_slice(), sought),
        None => false,
    }
}

// Returns whether a step is what is sought.
fn is_sought(step: &Step, sought: &Sought) -> bool
    ensures { result ≡ is_sought sought.now (step_of step.now) }
{
    match sought {
        Sought::Cancel(name) => cancels(step, name),
        Sought::Raise(name) => raises(step, name),
        Sought::Fail => fails(step),
        Sought::Failure => can_fail(step),
        Sought::Wait => waits(step),
        Sought::Set(name) => sets(step, name),
        Sought::Await(name) => awaits(step, name),
        Sought::Asking(ask, name) => asks(step, *ask, name),
        Sought::Close(name) => closes(step, name),
        Sought::Looped(_) => false,
        Sought::Nested(_, _) => false,
        Sought::Held(_, inner) => asks(step, Ask::Acquire, inner),
        Sought::Inverted(_) => false,
    }
}

// Returns whether the search continues inside a scope or nursery with this deadline.
fn is_entered(sought: &Sought, deadline: Deadline) -> bool
    ensures { result ≡ is_entered sought.now deadline }
{
    match sought {
        Sought::Wait => is_never(deadline),
        _ => true,
    }
}

// Returns what is sought in the block of a `repeat`.
fn in_loop(sought: &Sought) -> Sought
    ensures { result ≡ in_loop sought.now }
{
    match sought {
        Sought::Looped(name) => Sought::Asking(Ask::Receive, *name),
        _ => *sought,
    }
}

// Returns what is sought in the block of a step that asks the limiter or channel with a name for something.
fn with_grant(sought: &Sought, ask: Ask, name: &Name) -> Sought
    ensures { result ≡ with_grant ask name.now sought.now }
{
    match sought {
        Sought::Nested(outer, inner) => match ask {
            Ask::Acquire => held_if(name == outer, outer, inner),
            Ask::Send => *sought,
            Ask::Receive => *sought,
        },
        _ => *sought,
    }
}

// Returns what is sought where a token of the outer limiter is held, or not yet.
fn held_if(is_held: bool, outer: &Name, inner: &Name) -> Sought
    ensures { result ≡ held_if is_held outer.now inner.now }
{
    if is_held {
        Sought::Held(*outer, *inner)
    } else {
        Sought::Nested(*outer, *inner)
    }
}

// Returns what is sought in a task that is started. It does not hold the tokens of the task that starts it.
fn in_task(sought: &Sought) -> Sought
    ensures { result ≡ in_task sought.now }
{
    match sought {
        Sought::Held(outer, inner) => Sought::Nested(*outer, *inner),
        _ => *sought,
    }
}

pub(crate) fn is_never(deadline: Deadline) -> bool
    ensures { result ≡ is_never deadline }
{
    match deadline {
        Deadline::Never => true,
        Deadline::After(_) => false,
        Deadline::At(_) => false,
    }
}
