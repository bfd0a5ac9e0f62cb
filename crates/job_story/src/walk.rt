ghost use Rattle.std.specs.Option.{option_map};
ghost use Rattle.std.specs.Prelude.{◌≡◌, ◌+◌, ◌*◌, ◌<◌, ◌≤◌, ◌^◌, ℕ, Option, IfOk, ◌++◌, ◌∷◌, [], List};
ghost use Rattle.input_lines.specs.Part.{buffer_of, range_of};
ghost use Rattle.job_tree.specs.Blocks.{step_of, steps_of, handled_of, cleaned_of};
ghost use Rattle.job_tree.specs.InRange.{AreInRange, IsInRangeStep, IsInRangeOver, IsInRangePasses, IsInRangeHandler, IsInRangeCleanup};
ghost use Rattle.job_tree.specs.Names.{copies_of, size_of, size_in, handled_size, cleaned_size};
ghost use Rattle.job_meaning.specs.GrantTable.{granted_of};
ghost use Rattle.job_meaning.specs.Walk.{cuts_over, label_on, part_in_pass};
ghost use Rattle.objects.specs.Held.{IsGrantOf, what_in};
ghost use Rattle.objects.specs.Whats.{a_part, a_token, was_sent};
ghost use Rattle.block_exits.specs.Held.{kind_of};
ghost use Rattle.job_story.specs.Story.{Tale};
ghost use Rattle.job_story.specs.Held.{asked_of};
ghost use Rattle.job_story.specs.Tell.{tell, tell_step, tell_handler, tell_cleanup, tell_ask, tell_block, tell_event, tell_each, tell_got, tell_granted, tell_passes};
ghost use Rattle.job_story.specs.declared.event.Event.{Event as HeldEvent};
ghost use Rattle.job_story.specs.Heres.{CanWalk, block_of_ask, here_of, input_of, label_in, open_events, scene_of, scopes_of, stack_of, table_of, tables_of, inside, inside_event, started_tale, started_over, started_by, pass, told_object};
ghost use Rattle.job_story.specs.Tales.{Tells, now_in};

use crate::asks::{
    find_closed, granted, leave_queue, note_asked, note_got, note_token_back, sees, unasked,
};
use crate::block::Block;
use crate::here::Here;
use crate::leaves::tell_leaf;
use crate::notes::{leave, note, note_end, note_handled, note_replaced, note_start, wait};
use crate::progress::Progress;
use crate::stack::{Level, Stack};
use crate::stretch::Stretch;
use crate::{Asked, Happening, Kind};
use block_exits::{closed_resource, end_of_channel};
use exceptions::{Label, Match, split};
use input_lines::Part;
use job_meaning::Granted;
use job_tree::{Ask, Body, Handler, Name, ObjectKind, Step};
use objects::Grant;
use std::alloc::AllocError;
use std::mem;

// Walks the steps of a block, from a moment on, up to the first that ends with an exception.
#[cycle(telling)]
fn tell_steps<'a>(
    steps: &'a [Step],
    here: Here<'a, '_>,
    moment: u64,
    progress: &mut Progress,
) -> Result<Stretch, AllocError>
    requires in_range { AreInRange (steps_of steps.now) }
    requires room { CanWalk (size_of (steps_of steps.now)) here moment }
    ensures { IfOk result (λ w. Tells here.entry.task.now progress.old.events.items w progress.new
        (tell (tables_of here.entry) (steps_of steps.now) (scene_of here.entry) (stack_of here.entry) (now_in moment progress.old))) }
{
    let mut stretch = Stretch::at(here.alloc, moment);
    'steps: for step in steps {
        let next = tell_step(step, here, stretch.end(), progress)?;
        stretch = stretch.join(next)?;
        if stretch.has_failed() {
            return Ok(stretch);
        }
    }
    Ok(stretch)
}

// Walks one step, from a moment on.
#[cycle(telling)]
#[inline(never)]
fn tell_step<'a>(
    step: &'a Step,
    here: Here<'a, '_>,
    moment: u64,
    progress: &mut Progress,
) -> Result<Stretch, AllocError>
    requires in_range { IsInRangeStep (step_of step.now) }
    requires room { CanWalk (size_in (step_of step.now)) here moment }
    ensures { IfOk result (λ w. Tells here.entry.task.now progress.old.events.items w progress.new
        (tell_step (tables_of here.entry) (step_of step.now) (scene_of here.entry) (stack_of here.entry) (now_in moment progress.old))) }
{
    match step {
        Step::Scope {
            name,
            deadline,
            shield,
            fail,
            body,
        } => {
            let kind = Kind::Scope { fail: *fail };
            let block = here.block(kind, *name, here.clock.due(*deadline, moment), *shield)?;
            tell_block(&block, body, here, moment, progress)
        }
        Step::Nursery {
            name,
            deadline,
            shield,
            body,
        } => {
            let block = here.block(
                Kind::Nursery,
                *name,
                here.clock.due(*deadline, moment),
                *shield,
            )?;
            tell_block(&block, body, here, moment, progress)
        }
        Step::Event { name, body } => tell_event(name, body, here, moment, progress),
        Step::Object { name, kind, body } => {
            tell_object(name, *kind, body, here, moment, progress)
        }
        Step::Ask { name, ask, body } => tell_ask(name, *ask, body, here, moment, progress),
        Step::Start { name, over, body } => tell_start(name, *over, body, here, moment, progress),
        Step::Repeat { count, over, body } => {
            tell_passes(*count, *over, body, here, moment, progress)
        }
        Step::Try {
            body,
            handler,
            cleanup,
        } => tell_try(body, handler, cleanup, here, moment, progress),
        _ => tell_leaf(step, here, moment, progress),
    }
}

// Walks a scope or nursery that is entered in a moment, from there to where it is left.
#[cycle(telling)]
fn tell_block<'a>(
    block: &Block,
    body: &'a Body,
    here: Here<'a, '_>,
    moment: u64,
    progress: &mut Progress,
) -> Result<Stretch, AllocError>
    requires known { block.now.from ≡ table_of here block.now.label }
    requires in_range { AreInRange body.now }
    requires room { CanWalk (size_of body.now) here moment }
    ensures { IfOk result (λ w. Tells here.entry.task.now progress.old.events.items w progress.new
        (tell_block here.entry.clock (table_of here.entry) (kind_of block.now.kind) block.now.label moment block.now.deadline
        block.now.shield (scopes_of here.entry)
        (inside (kind_of block.now.kind) block.now.label block.now.shield body.now here.entry (now_in moment progress.old)))) }
{
    let label = block.label.copy(here.alloc)?;
    let what = Happening::Enters {
        kind: block.kind,
        label,
        deadline: block.deadline,
        shield: block.shield,
    };
    note(here, moment, what, &mut progress.events)?;
    let inner = tell_inside(block, body, here, moment, progress)?;
    let stretch = leave(block, inner, here, progress)?;
    Ok(stretch)
}

// Walks the inside of a scope or nursery. A nursery ends after the last of its children.
#[cycle(telling)]
#[inline(never)]
fn tell_inside<'a>(
    block: &Block,
    body: &'a Body,
    here: Here<'a, '_>,
    moment: u64,
    progress: &mut Progress,
) -> Result<Stretch, AllocError>
    requires in_range { AreInRange body.now }
    requires room { CanWalk (size_of body.now) here moment }
    ensures { IfOk result (λ w. Tells here.entry.task.now progress.old.events.items w progress.new
        (inside (kind_of block.now.kind) block.now.label block.now.shield body.now here.entry
        (now_in moment progress.old) block.now.from)) }
{
    let level = Level {
        label: block.label.copy(here.alloc)?,
        shield: block.shield,
        from: block.from,
    };
    let scopes = Stack::Within(level, here.scopes);
    let within = Here {
        scopes: &scopes,
        ..here
    };
    let stretch = tell_steps(body.as_slice(), within, moment, progress)?;
    match block.kind {
        Kind::Scope { .. } => Ok(stretch),
        Kind::Nursery => {
            let stretch = wait(&block.label, stretch, here, progress)?;
            Ok(stretch)
        }
    }
}

// Walks an event that is entered in a moment. Nothing is recorded where its block ends.
#[cycle(telling)]
#[inline(never)]
fn tell_event<'a>(
    name: &Name,
    body: &'a Body,
    here: Here<'a, '_>,
    moment: u64,
    progress: &mut Progress,
) -> Result<Stretch, AllocError>
    requires in_range { AreInRange body.now }
    requires room { CanWalk (size_of body.now) here moment }
    ensures { IfOk result (λ w. Tells here.entry.task.now progress.old.events.items w progress.new
        (tell_event (table_of here.entry) (label_in name.now here.entry) moment
        (inside_event (label_in name.now here.entry) body.now here.entry (now_in moment progress.old)))) }
{
    let event = here.event(*name)?;
    let label = event.label.copy(here.alloc)?;
    let what = Happening::EntersEvent { label };
    note(here, moment, what, &mut progress.events)?;
    let events = Stack::Within(event, here.events);
    let within = Here {
        events: &events,
        ..here
    };
    let stretch = tell_steps(body.as_slice(), within, moment, progress)?;
    Ok(stretch)
}

// Walks a limiter or channel that is entered in a moment. Nothing is recorded where its block ends.
#[cycle(telling)]
#[inline(never)]
fn tell_object<'a>(
    name: &Name,
    kind: ObjectKind,
    body: &'a Body,
    here: Here<'a, '_>,
    moment: u64,
    progress: &mut Progress,
) -> Result<Stretch, AllocError>
    requires in_range { AreInRange body.now }
    requires room { CanWalk (size_of body.now) here moment }
    ensures { IfOk result (λ w. Tells here.entry.task.now progress.old.events.items w progress.new
        (told_object name.now kind body.now here.entry (now_in moment progress.old))) }
{
    let object = here.event(*name)?;
    let label = object.label.copy(here.alloc)?;
    let what = Happening::EntersObject { kind, label };
    note(here, moment, what, &mut progress.events)?;
    let events = Stack::Within(object, here.events);
    let within = Here {
        events: &events,
        ..here
    };
    let stretch = tell_steps(body.as_slice(), within, moment, progress)?;
    Ok(stretch)
}

// Walks a step that asks the innermost limiter or channel of that name that encloses the task for something.
#[cycle(telling)]
#[inline(never)]
fn tell_ask<'a>(
    name: &Name,
    ask: Ask,
    body: &'a Body,
    here: Here<'a, '_>,
    moment: u64,
    progress: &mut Progress,
) -> Result<Stretch, AllocError>
    requires in_range { AreInRange body.now }
    requires room { CanWalk (1 + size_of body.now) here moment }
    ensures { IfOk result (λ w. Tells here.entry.task.now progress.old.events.items w progress.new
        (tell_ask (tables_of here.entry) ask (label_on name.now (open_events here.entry)) (scene_of here.entry) (scopes_of here.entry)
        (now_in moment progress.old) (block_of_ask body.now here.entry))) }
{
    let Some(object) = here.events.label_on(name) else {
        return Ok(Stretch::at(here.alloc, moment));
    };
    if sees(here, progress.cancelled.as_slice(), moment) {
        return unasked(here, ask, object, moment, progress);
    }
    match granted(here, object, moment)? {
        None => leave_queue(here, ask, object, moment, progress),
        Some(granted) => tell_got(granted, ask, object, body, here, moment, progress),
    }
}

// Walks what a task does that asked in a moment, and is granted something later.
#[cycle(telling)]
#[inline(never)]
fn tell_got<'a>(
    granted: Granted<'a>,
    ask: Ask,
    object: &Label,
    body: &'a Body,
    here: Here<'a, '_>,
    moment: u64,
    progress: &mut Progress,
) -> Result<Stretch, AllocError>
    requires in_range { AreInRange body.now }
    requires later { moment < granted.at }
    requires room { CanWalk (size_of body.now) here granted.at }
    requires lent { IsGrantOf (input_of here) granted.grant }
    ensures { IfOk result (λ w. Tells here.entry.task.now progress.old.events.items w progress.new
        (tell_got ask object.now (here_of here.entry) moment (granted_of granted.entry) (block_of_ask body.now here.entry))) }
{
    progress.cancelled.clear();
    let events = &mut progress.events;
    let at_once = note_asked(here, ask, object, moment, granted.at, events)?;
    let stretch = tell_granted(granted, object, at_once, body, here, progress)?;
    Ok(stretch)
}

// Walks what a task does with what it is granted, from that moment on.
#[cycle(telling)]
#[inline(never)]
fn tell_granted<'a>(
    granted: Granted<'a>,
    object: &Label,
    at_once: Option<Asked>,
    body: &'a Body,
    here: Here<'a, '_>,
    progress: &mut Progress,
) -> Result<Stretch, AllocError>
    requires in_range { AreInRange body.now }
    requires clear { progress.old.cancelled.items ≡ [] }
    requires room { CanWalk (size_of body.now) here granted.at }
    requires lent { IsGrantOf (input_of here) granted.grant }
    ensures { IfOk result (λ w. Tells here.entry.task.now progress.old.events.items w progress.new
        (tell_granted object.now (here_of here.entry) granted.entry.at (what_in granted.entry.grant) (option_map asked_of at_once)
        (block_of_ask body.now here.entry))) }
{
    let at = granted.at;
    match granted.grant {
        Grant::Token => tell_with_token(object, at_once, body, here, at, progress),
        Grant::Sent => tell_sent(object, at_once, body, here, at, progress),
        Grant::Received(part) => tell_received(part, object, at_once, body, here, at, progress),
        Grant::ClosedResource => {
            let name = closed_resource();
            find_closed(here, Ask::Send, object, at_once, name, at, progress)
        }
        Grant::EndOfChannel => {
            let name = end_of_channel();
            find_closed(here, Ask::Receive, object, at_once, name, at, progress)
        }
    }
}

// Walks the block of an `acquire`, at whose end the token comes back.
#[cycle(telling)]
#[inline(never)]
fn tell_with_token<'a>(
    object: &Label,
    at_once: Option<Asked>,
    body: &'a Body,
    here: Here<'a, '_>,
    moment: u64,
    progress: &mut Progress,
) -> Result<Stretch, AllocError>
    requires in_range { AreInRange body.now }
    requires clear { progress.old.cancelled.items ≡ [] }
    requires room { CanWalk (size_of body.now) here moment }
    ensures { IfOk result (λ w. Tells here.entry.task.now progress.old.events.items w progress.new
        (tell_granted object.now (here_of here.entry) moment a_token (option_map asked_of at_once) (block_of_ask body.now here.entry))) }
{
    note_got(
        here,
        Ask::Acquire,
        object,
        at_once,
        moment,
        &mut progress.events,
    )?;
    let stretch = tell_steps(body.as_slice(), here, moment, progress)?;
    note_token_back(here, object, stretch.end(), &mut progress.events)?;
    Ok(stretch)
}

// Walks the block of a `send`, which has none in the text of a job.
#[cycle(telling)]
#[inline(never)]
fn tell_sent<'a>(
    object: &Label,
    at_once: Option<Asked>,
    body: &'a Body,
    here: Here<'a, '_>,
    moment: u64,
    progress: &mut Progress,
) -> Result<Stretch, AllocError>
    requires in_range { AreInRange body.now }
    requires clear { progress.old.cancelled.items ≡ [] }
    requires room { CanWalk (size_of body.now) here moment }
    ensures { IfOk result (λ w. Tells here.entry.task.now progress.old.events.items w progress.new
        (tell_granted object.now (here_of here.entry) moment was_sent (option_map asked_of at_once) (block_of_ask body.now here.entry))) }
{
    note_got(
        here,
        Ask::Send,
        object,
        at_once,
        moment,
        &mut progress.events,
    )?;
    let stretch = tell_steps(body.as_slice(), here, moment, progress)?;
    Ok(stretch)
}

// Walks the block of a `receive`, where the task has the part that it received.
#[cycle(telling)]
#[inline(never)]
fn tell_received<'a>(
    part: Part<'a>,
    object: &Label,
    at_once: Option<Asked>,
    body: &'a Body,
    here: Here<'a, '_>,
    moment: u64,
    progress: &mut Progress,
) -> Result<Stretch, AllocError>
    requires in_range { AreInRange body.now }
    requires clear { progress.old.cancelled.items ≡ [] }
    requires room { CanWalk (size_of body.now) here moment }
    requires same { buffer_of part ≡ input_of here }
    ensures { IfOk result (λ w. Tells here.entry.task.now progress.old.events.items w progress.new
        (tell_granted object.now (here_of here.entry) moment (a_part (range_of part.entry)) (option_map asked_of at_once)
        (block_of_ask body.now here.entry))) }
{
    note_got(
        here,
        Ask::Receive,
        object,
        at_once,
        moment,
        &mut progress.events,
    )?;
    let inside = Here { part, ..here };
    let stretch = tell_steps(body.as_slice(), inside, moment, progress)?;
    Ok(stretch)
}

// Walks what a `start` starts: one task on the whole part, or one on each cut of it. They begin a round later.
#[cycle(telling)]
#[inline(never)]
fn tell_start<'a>(
    name: &Name,
    over: Option<u64>,
    body: &'a Body,
    here: Here<'a, '_>,
    moment: u64,
    progress: &mut Progress,
) -> Result<Stretch, AllocError>
    requires some { IsInRangeOver over }
    requires in_range { AreInRange body.now }
    requires room { CanWalk (copies_of over * (1 + size_of body.now)) here moment }
    ensures { IfOk result (λ w. Tells here.entry.task.now progress.old.events.items w progress.new
        (started_by name.now over body.now here.entry (now_in moment progress.old))) }
{
    let begins = here.clock.a_round_after(moment);
    match over {
        None => {
            let label = here.label_here(*name)?;
            let steps = body.as_slice();
            tell_child(label, here.part, steps, here, begins, moment, progress)
        }
        Some(copies) => tell_children(name, copies, body, here, begins, moment, progress),
    }
}

// Walks a task on a part of the input, from the moment in which it begins to its end. The task that started it goes on in the
// moment of the start, with what it has cancelled itself in it.
#[cycle(telling)]
pub(crate) fn tell_child<'a>(
    label: Label,
    part: Part<'a>,
    steps: &'a [Step],
    here: Here<'a, '_>,
    begins: u64,
    moment: u64,
    progress: &mut Progress,
) -> Result<Stretch, AllocError>
    requires in_range { AreInRange (steps_of steps.now) }
    requires room { CanWalk (size_of (steps_of steps.now)) here begins }
    requires same { buffer_of part ≡ input_of here }
    ensures { IfOk result (λ w. Tells here.entry.task.now progress.old.events.items w progress.new
        (started_tale label (range_of part.entry) (steps_of steps.now) here.entry begins (now_in moment progress.old))) }
{
    let own = mem::replace(&mut progress.cancelled, Vec::new(here.alloc));
    note_start(&label, part, here, begins, &mut progress.events)?;
    let inside = Here {
        part,
        task: &label,
        place: &label,
        ..here
    };
    let stretch = tell_steps(steps, inside, begins, progress)?;
    note_end(&label, &stretch, here, &mut progress.events)?;
    progress.cancelled = own;
    let stretch = stretch.into_child(here.alloc, moment)?;
    Ok(stretch)
}

// Walks the tasks of a `start .. over`, one after the other. They all begin in the same moment.
#[cycle(telling)]
fn tell_children<'a>(
    name: &Name,
    copies: u64,
    body: &'a Body,
    here: Here<'a, '_>,
    begins: u64,
    moment: u64,
    progress: &mut Progress,
) -> Result<Stretch, AllocError>
    requires some { 1 ≤ copies }
    requires few { copies ≤ 64 }
    requires in_range { AreInRange body.now }
    requires room { CanWalk (size_of body.now) here begins }
    ensures { IfOk result (λ w. Tells here.entry.task.now progress.old.events.items w progress.new
        (tell_each copies (started_over name.now copies body.now here.entry begins (now_in moment progress.old))
        (now_in moment progress.old))) }
{
    let mut stretch = Stretch::at(here.alloc, moment);
    'copies: for i in 0..copies {
        let part = here.part.cut(copies as usize, i as usize);
        let label = label_over(here, *name, i)?;
        let child = tell_child(label, part, body.as_slice(), here, begins, moment, progress)?;
        stretch = stretch.join(child)?;
    }
    Ok(stretch)
}

// Walks the passes of a `repeat`, each from where the one before it ended, up to the first that ends with an exception.
#[cycle(telling)]
fn tell_passes<'a>(
    count: u64,
    over: bool,
    body: &'a Body,
    here: Here<'a, '_>,
    moment: u64,
    progress: &mut Progress,
) -> Result<Stretch, AllocError>
    requires passes { IsInRangePasses over count }
    requires in_range { AreInRange body.now }
    requires room { CanWalk (count * (1 + size_of body.now)) here moment }
    ensures { IfOk result (λ w. Tells here.entry.task.now progress.old.events.items w progress.new
        (tell_passes 0 count (pass (cuts_over over count) body.now here.entry) (now_in moment progress.old))) }
{
    let mut stretch = Stretch::at(here.alloc, moment);
    'passes: for i in 0..count {
        let next = tell_pass(i, count, over, body, here, stretch.end(), progress)?;
        stretch = stretch.join(next)?;
        if stretch.has_failed() {
            return Ok(stretch);
        }
    }
    Ok(stretch)
}

// Walks one pass of a `repeat`, on its cut if it has one. What it enters or starts has the number of the pass in its label.
#[cycle(telling)]
#[inline(never)]
fn tell_pass<'a>(
    number: u64,
    count: u64,
    over: bool,
    body: &'a Body,
    here: Here<'a, '_>,
    moment: u64,
    progress: &mut Progress,
) -> Result<Stretch, AllocError>
    requires passes { IsInRangePasses over count }
    requires below { number < count }
    requires in_range { AreInRange body.now }
    requires room { CanWalk (size_of body.now) here moment }
    ensures { IfOk result (λ w. Tells here.entry.task.now progress.old.events.items w progress.new
        (pass (cuts_over over count) body.now here.entry number (now_in moment progress.old))) }
{
    let place = here.place.copy(here.alloc)?.with_index(number)?;
    let inside = Here {
        part: part_in_pass(here.part, over, count, number),
        place: &place,
        ..here
    };
    let stretch = tell_steps(body.as_slice(), inside, moment, progress)?;
    Ok(stretch)
}

// Walks a `try`: its body, its handler if that matches, and its `finally` block.
#[cycle(telling)]
#[inline(never)]
fn tell_try<'a>(
    body: &'a Body,
    handler: &'a Option<Handler>,
    cleanup: &'a Option<Body>,
    here: Here<'a, '_>,
    moment: u64,
    progress: &mut Progress,
) -> Result<Stretch, AllocError>
    requires in_range { AreInRange body.now }
    requires in_range_handler { IsInRangeHandler (handled_of handler.now) }
    requires in_range_cleanup { IsInRangeCleanup (cleaned_of cleanup.now) }
    requires room { CanWalk (size_of body.now + handled_size (handled_of handler.now) + cleaned_size (cleaned_of cleanup.now)) here moment }
    ensures { IfOk result (λ w. Tells here.entry.task.now progress.old.events.items w progress.new
        (tell_cleanup (tables_of here.entry) (cleaned_of cleanup.now) (scene_of here.entry) (stack_of here.entry)
        (tell_handler (tables_of here.entry) (handled_of handler.now) (scene_of here.entry) (stack_of here.entry)
        (tell (tables_of here.entry) body.now (scene_of here.entry) (stack_of here.entry) (now_in moment progress.old))))) }
{
    let stretch = tell_steps(body.as_slice(), here, moment, progress)?;
    let stretch = tell_handler(handler, stretch, here, progress)?;
    let stretch = tell_cleanup(cleanup, stretch, here, progress)?;
    Ok(stretch)
}

// Continues with the handler of a `try` whose body was walked, if there is one and its name matches what the body raised.
#[cycle(telling)]
#[inline(never)]
fn tell_handler<'a>(
    handler: &'a Option<Handler>,
    stretch: Stretch,
    here: Here<'a, '_>,
    progress: &mut Progress,
) -> Result<Stretch, AllocError>
    requires in_range { IsInRangeHandler (handled_of handler.now) }
    requires room { CanWalk (handled_size (handled_of handler.now)) here stretch.end }
    ensures { IfOk result (λ w. (start : List HeldEvent) (a : Tale) → Tells here.entry.task.now start stretch progress.old a
        → Tells here.entry.task.now start w progress.new
        (tell_handler (tables_of here.entry) (handled_of handler.now) (scene_of here.entry) (stack_of here.entry) a)) }
{
    let Some(handler) = handler else {
        return Ok(stretch);
    };
    let Some(exc) = stretch.copy_exc(here.alloc)? else {
        return Ok(stretch);
    };
    let (kept, rest) = split(here.alloc, exc, &Match::Name(handler.name))?;
    let Some(matched) = kept else {
        return Ok(stretch);
    };
    note_handled(here, stretch.end(), matched, &rest, &mut progress.events)?;
    let next = tell_steps(handler.body.as_slice(), here, stretch.end(), progress)?;
    let stretch = stretch.join_handler(here.alloc, next, rest)?;
    Ok(stretch)
}

// Continues with the `finally` block of a `try`, if there is one.
#[cycle(telling)]
#[inline(never)]
fn tell_cleanup<'a>(
    cleanup: &'a Option<Body>,
    stretch: Stretch,
    here: Here<'a, '_>,
    progress: &mut Progress,
) -> Result<Stretch, AllocError>
    requires in_range { IsInRangeCleanup (cleaned_of cleanup.now) }
    requires room { CanWalk (cleaned_size (cleaned_of cleanup.now)) here stretch.end }
    ensures { IfOk result (λ w. (start : List HeldEvent) (a : Tale) → Tells here.entry.task.now start stretch progress.old a
        → Tells here.entry.task.now start w progress.new
        (tell_cleanup (tables_of here.entry) (cleaned_of cleanup.now) (scene_of here.entry) (stack_of here.entry) a)) }
{
    let Some(cleanup) = cleanup else {
        return Ok(stretch);
    };
    let exc = stretch.box_exc(here.alloc)?;
    let what = Happening::Cleans { exc };
    note(here, stretch.end(), what, &mut progress.events)?;
    let inside = Here {
        in_cleanup: true,
        ..here
    };
    let next = tell_steps(cleanup.as_slice(), inside, stretch.end(), progress)?;
    let events = &mut progress.events;
    note_replaced(here, &stretch.exc, &next.exc, next.end(), events)?;
    let stretch = stretch.join_cleanup(here.alloc, next)?;
    Ok(stretch)
}

// The part of the input for one pass of a `repeat`: its cut of this part if the passes are over cuts, and else all of it.
fn part_in_pass(part: Part<'_>, over: bool, count: u64, number: u64) -> Part<'_>
    requires passes { IsInRangePasses over count }
    requires below { number < count }
    ensures buffer { buffer_of result ≡ buffer_of part.entry }
    ensures range { range_of result ≡ part_in_pass (buffer_of part.entry) (cuts_over over count) number (range_of part.entry) }
{
    if !over {
        return part;
    }
    part.cut(count as usize, number as usize)
}

// The label of a task of a `start .. over`, with its index.
fn label_over(here: Here<'_, '_>, name: Name, index: u64) -> Result<Label, AllocError>
    ensures { IfOk result (λ label. label ≡ record { name = name; indices = here.entry.place.now.indices ++ index ∷ [] }) }
{
    here.label_here(name)?.with_index(index)
}
