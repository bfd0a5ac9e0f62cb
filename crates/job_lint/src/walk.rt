ghost use Rattle.std.specs.Prelude.{◌≡◌, ◌∷◌, ◌+◌, ◌≤◌, false, length, IfOk};
ghost use Rattle.job_tree.specs.Blocks.{step_of, steps_of, handled_of, cleaned_of};
ghost use Rattle.job_lint.specs.Openings.{openings_of, openings_in, handled_openings, cleaned_openings, numbered_in};
ghost use Rattle.job_lint.specs.Opened.{names_opened};
ghost use Rattle.job_lint.specs.Warnings.{warnings_of, warnings_in, handled_warnings, cleaned_warnings};
ghost use Rattle.job_lint.specs.Adding.{Adds};

use crate::around::Around;
use crate::opened::Opened;
use crate::own::{
    idle_handler, is_cancelled, is_nursery_cancelled, never_ends_well, push_found, push_own,
};
use crate::warning::Warning;
use job_tree::{Body, Handler, Name, Step};
use std::alloc::AllocError;

// Each of these functions appends the warnings of a part of a job. `number` is the number of the first keyword of the part, and
// `places` are the places of all keywords. The result is the number of the first keyword after the part.

// Appends the warnings of the steps of a block.
#[cycle(walking)]
pub(crate) fn walk_steps(
    steps: &[Step],
    places: &[usize],
    around: Around,
    opened: &Opened,
    number: usize,
    found: &mut Vec<Warning>,
) -> Result<usize, AllocError>
    requires { number + openings_of (steps_of steps.now) ≤ length places.now }
    ensures { IfOk result (λ next. (next ≡ number + openings_of (steps_of steps.now))
        × Adds found.old.items found.new.items
        (warnings_of (numbered_in places.now) around (names_opened opened.now) false number (steps_of steps.now))) }
{
    let mut next = number;
    let mut unreachable = false;
    'steps: for step in steps {
        push_own(step, unreachable, around, opened, places[next], found)?;
        next = walk_inside(step, places, around, opened, next + 1, found)?;
        unreachable = never_ends_well(step);
    }
    Ok(next)
}

// Appends the warnings inside a step, after its own keyword.
#[cycle(walking)]
fn walk_inside(
    step: &Step,
    places: &[usize],
    around: Around,
    opened: &Opened,
    number: usize,
    found: &mut Vec<Warning>,
) -> Result<usize, AllocError>
    requires { number + openings_in (step_of step.now) ≤ length places.now }
    ensures { IfOk result (λ next. (next ≡ number + openings_in (step_of step.now))
        × Adds found.old.items found.new.items
        (warnings_in (numbered_in places.now) around (names_opened opened.now) number (step_of step.now))) }
{
    match step {
        Step::Scope {
            name,
            deadline,
            shield,
            body,
            ..
        } => {
            let around = around.in_block(*shield, is_cancelled(*name, *deadline, body));
            walk_opened(name, body, places, around, opened, number, found)
        }
        Step::Nursery {
            name,
            deadline,
            shield,
            body,
        } => {
            let around = around.in_block(*shield, is_nursery_cancelled(*name, *deadline, body));
            walk_opened(name, body, places, around, opened, number, found)
        }
        Step::Ask { body, .. } => walk_body(body, places, around, opened, number, found),
        Step::Event { body, .. } => walk_body(body, places, around, opened, number, found),
        Step::Object { body, .. } => walk_body(body, places, around, opened, number, found),
        Step::Start { body, .. } => walk_body(body, places, around, opened, number, found),
        Step::Repeat { body, .. } => walk_body(body, places, around, opened, number, found),
        Step::Try {
            body,
            handler,
            cleanup,
        } => {
            let next = walk_steps(body.as_slice(), places, around, opened, number, found)?;
            let next = walk_handler(handler, body, places, around, next, found)?;
            let next = walk_cleanup(cleanup, places, around, next, found)?;
            Ok(next)
        }
        _ => Ok(number),
    }
}

// Appends the warnings of a block.
#[cycle(walking)]
fn walk_body(
    body: &Body,
    places: &[usize],
    around: Around,
    opened: &Opened,
    number: usize,
    found: &mut Vec<Warning>,
) -> Result<usize, AllocError>
    requires { number + openings_of body.now ≤ length places.now }
    ensures { IfOk result (λ next. (next ≡ number + openings_of body.now)
        × Adds found.old.items found.new.items
        (warnings_of (numbered_in places.now) around (names_opened opened.now) false number body.now)) }
{
    let next = walk_steps(body.as_slice(), places, around, opened, number, found)?;
    Ok(next)
}

// Appends the warnings of the block of a scope or nursery with this name.
#[cycle(walking)]
fn walk_opened(
    name: &Name,
    body: &Body,
    places: &[usize],
    around: Around,
    opened: &Opened,
    number: usize,
    found: &mut Vec<Warning>,
) -> Result<usize, AllocError>
    requires { number + openings_of body.now ≤ length places.now }
    ensures { IfOk result (λ next. (next ≡ number + openings_of body.now)
        × Adds found.old.items found.new.items
        (warnings_of (numbered_in places.now) around (name.now ∷ names_opened opened.now) false number body.now)) }
{
    let next = walk_steps(
        body.as_slice(),
        places,
        around,
        &Opened::Block(&*name, &*opened),
        number,
        found,
    )?;
    Ok(next)
}

// Appends the warnings of the handler of a `try`, if there is one. `tried` is the block of the `try`.
#[cycle(walking)]
fn walk_handler(
    handler: &Option<Handler>,
    tried: &Body,
    places: &[usize],
    around: Around,
    number: usize,
    found: &mut Vec<Warning>,
) -> Result<usize, AllocError>
    requires { number + handled_openings (handled_of handler.now) ≤ length places.now }
    ensures { IfOk result (λ next. (next ≡ number + handled_openings (handled_of handler.now))
        × Adds found.old.items found.new.items
        (handled_warnings (numbered_in places.now) around number tried.now (handled_of handler.now))) }
{
    let Some(handler) = handler else {
        return Ok(number);
    };
    push_found(idle_handler(handler.name, tried, places[number]), found)?;
    let around = around.in_handler();
    let next = walk_steps(
        handler.body.as_slice(),
        places,
        around,
        &Opened::Nothing,
        number + 1,
        found,
    )?;
    Ok(next)
}

// Appends the warnings of the cleanup of a `try`, if there is one.
#[cycle(walking)]
fn walk_cleanup(
    cleanup: &Option<Body>,
    places: &[usize],
    around: Around,
    number: usize,
    found: &mut Vec<Warning>,
) -> Result<usize, AllocError>
    requires { number + cleaned_openings (cleaned_of cleanup.now) ≤ length places.now }
    ensures { IfOk result (λ next. (next ≡ number + cleaned_openings (cleaned_of cleanup.now))
        × Adds found.old.items found.new.items (cleaned_warnings (numbered_in places.now) around number (cleaned_of cleanup.now))) }
{
    let Some(body) = cleanup else {
        return Ok(number);
    };
    let around = around.in_cleanup();
    let next = walk_steps(
        body.as_slice(),
        places,
        around,
        &Opened::Nothing,
        number + 1,
        found,
    )?;
    Ok(next)
}
