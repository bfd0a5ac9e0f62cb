ghost use Rattle.std.specs.Prelude.{◌≡◌, ◌++◌, OnOk, codes};
ghost use Rattle.job_tree.specs.Blocks.{cleaned_of, handled_of, step_of, steps_of};
ghost use Rattle.job_tree.specs.Tree.{ask_for, repeat, start};
ghost use Rattle.trio_text.specs.Blocks.{Apart, Inside, OrPass, Tried, Writes, WritesHandler, WritesStep, WritesTry};
ghost use Rattle.trio_text.specs.Uses.{known_in};

use crate::nested::{push_nested_block, push_nested_call, push_nested_calls, push_nested_try};
use crate::pieces::push_line;
use crate::place::Place;
use crate::scopes::{push_event, push_nursery, push_scope};
use crate::sharing::{push_acquire, push_object, push_receive, push_received, push_send};
use crate::statements::{push_handling, push_plain, push_repeat};
use crate::tasks::{push_each_cut, push_each_part, push_starts, push_task};
use crate::words::Words;
use job_tree::{Ask, Body, Handler, Name, Step};
use std::alloc::AllocError;

// Appends the statements for the steps of a block at its place.
#[cycle(steps)]
pub(crate) fn push_steps(
    out: &mut Vec<u8>,
    words: &Words,
    place: &Place,
    steps: &[Step],
) -> Result<(), AllocError>
    ensures { OnOk result (OrPass (steps_of steps.now) (Writes (known_in words.now) place.now.nursery (steps_of steps.now))
        place.now.level out.old.items out.new.items) }
{
    if steps.is_empty() {
        push_line(out, place.level, b"pass")?;
        return Ok(());
    }
    push_each(out, words, place, steps)?;
    Ok(())
}

#[cycle(steps)]
fn push_each(
    out: &mut Vec<u8>,
    words: &Words,
    place: &Place,
    steps: &[Step],
) -> Result<(), AllocError>
    ensures { OnOk result (Writes (known_in words.now) place.now.nursery (steps_of steps.now) place.now.level out.old.items out.new.items) }
{
    let mut rest = steps;
    'steps: while let Some((first, others)) = rest.split_first() {
        push_step(out, words, place, first)?;
        rest = others;
    }
    Ok(())
}

// Appends a block. If Python allows no more enclosing blocks in one function, the block gets a function of its own.
#[cycle(steps)]
fn push_block(
    out: &mut Vec<u8>,
    words: &Words,
    place: &Place,
    body: &Body,
) -> Result<(), AllocError>
    ensures { OnOk result (Inside (OrPass body.now (Writes (known_in words.now) place.now.nursery body.now))
        place.now.level out.old.items out.new.items) }
{
    if !place.is_deep() {
        push_steps(out, words, place, body.as_slice())?;
        return Ok(());
    }
    push_nested_block(out, place.level)?;
    push_steps(out, words, &place.in_function(), body.as_slice())?;
    push_nested_call(out, place.level)?;
    Ok(())
}

#[cycle(steps)]
fn push_step(out: &mut Vec<u8>, words: &Words, place: &Place, step: &Step) -> Result<(), AllocError>
    ensures { OnOk result (WritesStep (known_in words.now) place.now.nursery (step_of step.now) place.now.level out.old.items out.new.items) }
{
    match step {
        Step::Scope {
            name,
            deadline,
            shield,
            fail,
            body,
        } => {
            push_scope(out, place.level, *name, *deadline, *shield, *fail)?;
            push_block(out, words, &place.inside(1), body)
        }
        Step::Nursery {
            name,
            deadline,
            shield,
            body,
        } => {
            push_nursery(out, place.level, *name, *deadline, *shield)?;
            push_block(out, words, &place.in_nursery(*name), body)
        }
        Step::Event { name, body } => {
            push_event(out, place.level, *name)?;
            push_each(out, words, place, body.as_slice())?;
            Ok(())
        }
        Step::Object { name, kind, body } => {
            push_object(out, place.level, *name, *kind)?;
            push_each(out, words, place, body.as_slice())?;
            Ok(())
        }
        Step::Ask { name, ask, body } => push_ask(out, words, place, *name, *ask, body),
        Step::Start { name, over, body } => push_child(out, words, place, *name, *over, body),
        Step::Repeat { count, over, body } => push_passes(out, words, place, *count, *over, body),
        Step::Try {
            body,
            handler,
            cleanup,
        } => push_try(out, words, place, body, handler, cleanup),
        _ => push_plain(out, words, place.level, step),
    }
}

// Appends a `start`: the function of the task, and the lines that start it.
#[cycle(steps)]
fn push_child(
    out: &mut Vec<u8>,
    words: &Words,
    place: &Place,
    name: Name,
    over: Option<u64>,
    body: &Body,
) -> Result<(), AllocError>
    ensures { OnOk result (WritesStep (known_in words.now) place.now.nursery (start name over body.now) place.now.level
        out.old.items out.new.items) }
{
    push_task(out, place.level, name, over)?;
    push_block(out, words, &place.in_function(), body)?;
    push_starts(out, place.level, place.nursery, name, over)?;
    Ok(())
}

// Appends what asks a limiter or channel for something, and the block that has it. What is done with a part that is received
// is a function, whose part it is.
#[cycle(steps)]
fn push_ask(
    out: &mut Vec<u8>,
    words: &Words,
    place: &Place,
    name: Name,
    ask: Ask,
    body: &Body,
) -> Result<(), AllocError>
    ensures { OnOk result (WritesStep (known_in words.now) place.now.nursery (ask_for name ask body.now) place.now.level
        out.old.items out.new.items) }
{
    match ask {
        Ask::Acquire => {
            push_acquire(out, place.level, name)?;
            push_block(out, words, &place.inside(1), body)?;
            Ok(())
        }
        Ask::Send => {
            push_send(out, place.level, name)?;
            push_each(out, words, place, body.as_slice())?;
            Ok(())
        }
        Ask::Receive => {
            push_received(out, place.level)?;
            push_block(out, words, &place.in_function(), body)?;
            push_receive(out, place.level, name)?;
            Ok(())
        }
    }
}

// Appends a `repeat`. Each pass over a part of the input is a call of a function.
#[cycle(steps)]
fn push_passes(
    out: &mut Vec<u8>,
    words: &Words,
    place: &Place,
    count: u64,
    over: bool,
    body: &Body,
) -> Result<(), AllocError>
    ensures { OnOk result (WritesStep (known_in words.now) place.now.nursery (repeat count over body.now) place.now.level
        out.old.items out.new.items) }
{
    if over {
        push_each_part(out, place.level)?;
        push_block(out, words, &place.in_function(), body)?;
        push_each_cut(out, place.level, count)?;
        return Ok(());
    }
    push_repeat(out, place.level, count)?;
    push_block(out, words, &place.inside(1), body)?;
    Ok(())
}

#[cycle(steps)]
fn push_try(
    out: &mut Vec<u8>,
    words: &Words,
    place: &Place,
    body: &Body,
    handler: &Option<Handler>,
    cleanup: &Option<Body>,
) -> Result<(), AllocError>
    ensures { OnOk result (WritesTry (known_in words.now) place.now.nursery (cleaned_of cleanup.now)
        (Tried (Inside (OrPass body.now (Writes (known_in words.now) place.now.nursery body.now)))
        (WritesHandler (known_in words.now) place.now.nursery (handled_of handler.now)))
        place.now.level out.old.items out.new.items) }
{
    let Some(cleanup) = cleanup else {
        push_tried(out, words, place, body, handler)?;
        return Ok(());
    };
    if place.is_deep_in_cleanups() {
        push_try_apart(out, words, place, body, handler, cleanup)?;
        return Ok(());
    }
    push_tried(out, words, place, body, handler)?;
    push_line(out, place.level, b"finally:")?;
    push_block(out, words, &place.in_cleanup(), cleanup)?;
    Ok(())
}

// Appends the body of a `try` and its handler.
#[cycle(steps)]
fn push_tried(
    out: &mut Vec<u8>,
    words: &Words,
    place: &Place,
    body: &Body,
    handler: &Option<Handler>,
) -> Result<(), AllocError>
    ensures { OnOk result (Tried (Inside (OrPass body.now (Writes (known_in words.now) place.now.nursery body.now)))
        (WritesHandler (known_in words.now) place.now.nursery (handled_of handler.now)) place.now.level out.old.items out.new.items) }
{
    push_line(out, place.level, b"try:")?;
    push_block(out, words, &place.inside(2), body)?;
    push_handler(out, words, place, handler)?;
    Ok(())
}

// Appends a `try` inside nested cleanups. Its own cleanup is a function that is defined before it, since Python compiles a
// `finally` twice.
#[cycle(steps)]
fn push_try_apart(
    out: &mut Vec<u8>,
    words: &Words,
    place: &Place,
    body: &Body,
    handler: &Option<Handler>,
    cleanup: &Body,
) -> Result<(), AllocError>
    ensures { OnOk result (Apart (Inside (OrPass cleanup.now (Writes (known_in words.now) place.now.nursery cleanup.now)))
        (Tried (Inside (OrPass body.now (Writes (known_in words.now) place.now.nursery body.now)))
        (WritesHandler (known_in words.now) place.now.nursery (handled_of handler.now)))
        place.now.level out.old.items out.new.items) }
{
    let inside = place.in_function();
    push_nested_try(out, place.level)?;
    push_block(out, words, &inside.in_function(), cleanup)?;
    out.extend_from_slice(b"\n")?;
    push_tried(out, words, &inside, body, handler)?;
    push_nested_calls(out, place.level)?;
    Ok(())
}

#[cycle(steps)]
fn push_handler(
    out: &mut Vec<u8>,
    words: &Words,
    place: &Place,
    handler: &Option<Handler>,
) -> Result<(), AllocError>
    ensures { OnOk result (WritesHandler (known_in words.now) place.now.nursery (handled_of handler.now) place.now.level
        out.old.items out.new.items) }
{
    let Some(handler) = handler else {
        return Ok(());
    };
    push_handling(out, words, place.level, handler.name)?;
    push_block(out, words, &place.inside(3).inside(1), &handler.body)?;
    Ok(())
}
