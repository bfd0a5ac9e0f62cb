ghost use Rattle.std.specs.Prelude.{◌≡◌, ◌++◌, [], Some, None, OnOk, codes, decimal};
ghost use Rattle.std.specs.Option.{option_map};
ghost use Rattle.exceptions.specs.Held.{exc_of};
ghost use Rattle.exceptions.specs.Split.{is_cancelled, drop};
ghost use Rattle.block_exits.specs.Held.{kind_of};
ghost use Rattle.job_story.specs.Held.{unboxed_exc, during_of, happening_of, what_of};
ghost use Rattle.job_story.specs.Sentences.{kind_text, with_exc, entering_text, until_text, during_text, cleanup_text, cause_text, entered_text, count_text, caught_text, leaving_text, from_text, sign_text, cancel_text, set_text, cancelled_text, happening_text, home_text, what_text};
ghost use Rattle.exceptions.specs.Texts.{label_text, exc_text, end_text};
ghost use Rattle.job_meaning.specs.Clocks.{tick_of};
ghost use Rattle.job_meaning.specs.declared.clock.Clock.{Clock};
ghost use Rattle.story_index.specs.Found.{entering_in_code, cause_in_code};
ghost use Rattle.story_text.specs.Known.{clock_in, events_in, cancelled_from_in};

use crate::asks::{
    push_asked, push_asking, push_closed, push_closes, push_deadlocks, push_enters_object,
    push_gets, push_token_back,
};
use crate::known::Known;
use crate::ticks::next_from;
use basics::push_number;
use exceptions::{Exc, Label, push_exc, push_label, push_raised};
use job_meaning::Clock;
use job_story::{During, Event, Happening, Kind, What};
use job_tree::Name;
use std::alloc::AllocError;
use story_index::{Cause, Entering, is_cancellation};

// Appends the sentence of an event.
pub(crate) fn push_what(
    out: &mut Vec<u8>,
    known: &Known<'_, '_>,
    event: &Event,
) -> Result<(), AllocError>
    ensures { OnOk result (out.new.items
        ≡ out.old.items
        ++ what_text (clock_in known.now) (cancelled_from_in known.now) (events_in known.now) event.now.tick (what_of event.now.what)) }
{
    match &event.what {
        What::Starts { home, .. } => {
            out.extend_from_slice(b"starts")?;
            push_home(out, home)
        }
        What::Happens(happening) => push_happening(out, known, event.tick, happening),
        What::Ends { home, exc } => {
            out.extend_from_slice(b"ends: ")?;
            push_end(out, exc)?;
            push_home_sign(out, known, home, exc, event.tick)
        }
    }
}

// Appends the sentence of what happens to a task between its start and its end.
fn push_happening(
    out: &mut Vec<u8>,
    known: &Known<'_, '_>,
    moment: u64,
    happening: &Happening,
) -> Result<(), AllocError>
    ensures { OnOk result (out.new.items
        ≡ out.old.items
        ++ happening_text (clock_in known.now) (cancelled_from_in known.now) (events_in known.now) moment (happening_of happening.now)) }
{
    match happening {
        Happening::Enters {
            kind,
            label,
            deadline,
            shield,
        } => push_enters(out, known.clock, *kind, label, *deadline, *shield),
        Happening::EntersEvent { label } => push_labelled(out, b"enters event ", label),
        Happening::Sleeps { until } => push_sleeps(out, known.clock, *until),
        Happening::IsCancelled {
            by,
            during,
            in_cleanup,
        } => push_is_cancelled(out, known, by, during, *in_cleanup),
        Happening::Finds { lines } => push_finds(out, lines.len()),
        Happening::Misses { name } => push_verb(out, b"finds no line and raises ", *name),
        Happening::Raises { name } => push_verb(out, b"raises ", *name),
        Happening::Cancels { label } => push_cancels(out, known, label, moment),
        Happening::Sets { label } => push_sets(out, known, label, moment),
        Happening::Awaits { event } => push_labelled(out, b"waits for event ", event),
        Happening::WasSet { event } => push_was_set(out, event),
        Happening::EntersObject { kind, label } => push_enters_object(out, *kind, label),
        Happening::Queues { ask, object, .. } => push_asking(out, b"waits ", *ask, object),
        Happening::Gets {
            ask,
            object,
            at_once,
        } => push_gets(out, *ask, object, at_once),
        Happening::FindsClosed { ask, object, .. } => push_closed(out, *ask, object),
        Happening::Deadlocks { ask, object } => push_deadlocks(out, *ask, object),
        Happening::GivesTokenBack { object } => push_token_back(out, object),
        Happening::ClosesChannel { object } => push_closes(out, object),
        Happening::Handles { matched, rest } => push_handles(out, matched, rest),
        Happening::Cleans { exc } => push_cleans(out, exc),
        Happening::Replaces { lost, fresh } => push_replaces(out, lost, fresh),
        Happening::Waits { nursery, exc } => push_waits(out, known, nursery, exc, moment),
        Happening::Leaves {
            kind,
            label,
            inside,
            caught,
            outside,
        } => push_leaves(out, *kind, label, inside, *caught, outside),
    }
}

// Appends a verb, and a name after it.
fn push_verb(out: &mut Vec<u8>, verb: &[u8], name: Name) -> Result<(), AllocError>
    ensures { OnOk result (out.new.items ≡ out.old.items ++ (verb.now ++ name)) }
{
    out.extend_from_slice(verb)?;
    out.extend_from_slice(name.bytes())
}

// Appends some words, and a label after them.
pub(crate) fn push_labelled(
    out: &mut Vec<u8>,
    words: &[u8],
    label: &Label,
) -> Result<(), AllocError>
    ensures { OnOk result (out.new.items ≡ out.old.items ++ (words.now ++ label_text label.now)) }
{
    out.extend_from_slice(words)?;
    push_label(out, label)
}

// Appends that a task enters a scope or nursery.
fn push_enters(
    out: &mut Vec<u8>,
    clock: Clock,
    kind: Kind,
    label: &Label,
    deadline: Option<u64>,
    shield: bool,
) -> Result<(), AllocError>
    ensures { OnOk result (out.new.items
        ≡ out.old.items ++ (codes "enters " ++ kind_text (kind_of kind) ++ label_text label.now ++ entering_text clock deadline shield)) }
{
    out.extend_from_slice(b"enters ")?;
    push_kind(out, kind)?;
    push_label(out, label)?;
    push_entering(out, clock, deadline, shield)
}

// Appends the word for a scope or nursery.
fn push_kind(out: &mut Vec<u8>, kind: Kind) -> Result<(), AllocError>
    ensures { OnOk result (out.new.items ≡ out.old.items ++ kind_text (kind_of kind)) }
{
    match kind {
        Kind::Scope { .. } => out.extend_from_slice(b"scope "),
        Kind::Nursery => out.extend_from_slice(b"nursery "),
    }
}

// Appends the deadline and the shield of a scope or nursery that is entered.
fn push_entering(
    out: &mut Vec<u8>,
    clock: Clock,
    deadline: Option<u64>,
    shield: bool,
) -> Result<(), AllocError>
    ensures { OnOk result (out.new.items ≡ out.old.items ++ entering_text clock deadline shield) }
{
    let Some(moment) = deadline else {
        return push_shield(out, shield);
    };
    out.extend_from_slice(b" (deadline ")?;
    push_number(out, clock.tick_of(moment))?;
    if shield {
        out.extend_from_slice(b", shielded)")
    } else {
        out.extend_from_slice(b")")
    }
}

// Appends the shield of a scope or nursery that has no deadline.
fn push_shield(out: &mut Vec<u8>, shield: bool) -> Result<(), AllocError>
    ensures { OnOk result ((clock : Clock) → out.new.items ≡ out.old.items ++ entering_text clock None shield) }
{
    if shield {
        out.extend_from_slice(b" (shielded)")
    } else {
        Ok(())
    }
}

// Appends that a task sleeps, and until when.
fn push_sleeps(out: &mut Vec<u8>, clock: Clock, until: Option<u64>) -> Result<(), AllocError>
    ensures { OnOk result (out.new.items ≡ out.old.items ++ (codes "sleeps " ++ until_text clock until)) }
{
    out.extend_from_slice(b"sleeps ")?;
    push_until(out, clock, until)?;
    Ok(())
}

// Appends the tick until which a task sleeps, or that it sleeps forever.
pub(crate) fn push_until(
    out: &mut Vec<u8>,
    clock: Clock,
    until: Option<u64>,
) -> Result<(), AllocError>
    ensures { OnOk result (out.new.items ≡ out.old.items ++ until_text clock until) }
{
    let Some(moment) = until else {
        return out.extend_from_slice(b"forever");
    };
    out.extend_from_slice(b"until ")?;
    push_number(out, clock.tick_of(moment))
}

// Appends that a task is cancelled, where, and by which scope or nursery.
fn push_is_cancelled(
    out: &mut Vec<u8>,
    known: &Known<'_, '_>,
    by: &Option<Label>,
    during: &During,
    in_cleanup: bool,
) -> Result<(), AllocError>
    ensures { OnOk result (out.new.items
        ≡ out.old.items ++ (codes "is cancelled" ++ cleanup_text in_cleanup ++ during_text (clock_in known.now) (during_of during.now)
        ++ cancelled_text (clock_in known.now) (cancelled_from_in known.now) (events_in known.now) by.now)) }
{
    out.extend_from_slice(b"is cancelled")?;
    push_cleanup(out, in_cleanup)?;
    push_during(out, known.clock, during)?;
    push_by(out, known, by)?;
    Ok(())
}

// Appends whether a cancellation came in a `finally` block.
fn push_cleanup(out: &mut Vec<u8>, in_cleanup: bool) -> Result<(), AllocError>
    ensures { OnOk result (out.new.items ≡ out.old.items ++ cleanup_text in_cleanup) }
{
    if in_cleanup {
        out.extend_from_slice(b" during cleanup")
    } else {
        Ok(())
    }
}

// Appends what a task did that is cancelled: it was at a checkpoint, slept or waited since a tick, or was to ask for something.
fn push_during(out: &mut Vec<u8>, clock: Clock, during: &During) -> Result<(), AllocError>
    ensures { OnOk result (out.new.items ≡ out.old.items ++ during_text clock (during_of during.now)) }
{
    match during {
        During::Checkpoint => out.extend_from_slice(b" at a checkpoint"),
        During::Sleeping { since } => {
            out.extend_from_slice(b" while sleeping since ")?;
            push_number(out, clock.tick_of(*since))
        }
        During::Waiting { event, since } => {
            push_waiting(out, b" while waiting for event ", event, clock, *since)
        }
        During::InQueue { ask, object, since } => {
            push_asked(out, b" while waiting ", *ask, object, clock, *since)
        }
        During::BeforeAsking { ask, object } => {
            push_asking(out, b" before it asks ", *ask, object)
        }
    }
}

// Appends some words, the label of what a task waits for, and since when.
pub(crate) fn push_waiting(
    out: &mut Vec<u8>,
    words: &[u8],
    label: &Label,
    clock: Clock,
    since: u64,
) -> Result<(), AllocError>
    ensures { OnOk result (out.new.items
        ≡ out.old.items ++ (words.now ++ label_text label.now ++ codes " since " ++ decimal (tick_of clock since))) }
{
    push_labelled(out, words, label)?;
    push_since(out, clock, since)
}

// Appends since when a task does something.
pub(crate) fn push_since(out: &mut Vec<u8>, clock: Clock, since: u64) -> Result<(), AllocError>
    ensures { OnOk result (out.new.items ≡ out.old.items ++ (codes " since " ++ decimal (tick_of clock since))) }
{
    out.extend_from_slice(b" since ")?;
    push_number(out, clock.tick_of(since))
}

// Appends the scope or nursery by which a task is cancelled, and why that is cancelled.
fn push_by(out: &mut Vec<u8>, known: &Known<'_, '_>, by: &Option<Label>) -> Result<(), AllocError>
    ensures { OnOk result (out.new.items
        ≡ out.old.items ++ cancelled_text (clock_in known.now) (cancelled_from_in known.now) (events_in known.now) by.now) }
{
    let Some(label) = by else {
        return Ok(());
    };
    out.extend_from_slice(b" by ")?;
    push_entered(out, known.entering_of(label), label)?;
    let Some(cause) = known.cause(label) else {
        return Ok(());
    };
    push_cause(out, known.clock, &cause)
}

// Appends why a scope or nursery is cancelled, or an event is set.
fn push_cause(out: &mut Vec<u8>, clock: Clock, cause: &Cause<'_>) -> Result<(), AllocError>
    ensures { OnOk result (out.new.items ≡ out.old.items ++ cause_text clock (Some (cause_in_code cause.now))) }
{
    match cause {
        Cause::Deadline => out.extend_from_slice(b" (deadline)"),
        Cause::Task { task, tick } => {
            push_act(out, b" (cancelled by ", task, b" at ", clock.tick_of(*tick))
        }
        Cause::Set { task, tick } => {
            push_act(out, b" (set by ", task, b" at ", clock.tick_of(*tick))
        }
        Cause::Failure { task, tick } => {
            push_act(out, b" (", task, b" failed at ", clock.tick_of(*tick))
        }
        Cause::Cancellation { task, tick } => {
            push_act(
                out,
                b" (",
                task,
                b" was cancelled at ",
                clock.tick_of(*tick),
            )
        }
    }
}

// Appends the task and the tick of a cause between these words, and a closing bracket.
fn push_act(
    out: &mut Vec<u8>,
    before: &[u8],
    task: &Label,
    between: &[u8],
    tick: u64,
) -> Result<(), AllocError>
    ensures { OnOk result (out.new.items
        ≡ out.old.items ++ (before.now ++ label_text task.now ++ between.now ++ decimal tick ++ codes ")")) }
{
    out.extend_from_slice(before)?;
    push_label(out, task)?;
    out.extend_from_slice(between)?;
    push_number(out, tick)?;
    out.extend_from_slice(b")")
}

// Appends a label, after the word for its kind if that is known.
fn push_entered(
    out: &mut Vec<u8>,
    entering: Option<Entering>,
    label: &Label,
) -> Result<(), AllocError>
    ensures { OnOk result (out.new.items ≡ out.old.items ++ entered_text (option_map entering_in_code entering) label.now) }
{
    let Some(entering) = entering else {
        return push_label(out, label);
    };
    push_kind(out, entering.kind)?;
    push_label(out, label)
}

// Appends how many lines a kernel found.
fn push_finds(out: &mut Vec<u8>, count: usize) -> Result<(), AllocError>
    ensures { OnOk result (out.new.items ≡ out.old.items ++ (codes "finds " ++ count_text count)) }
{
    out.extend_from_slice(b"finds ")?;
    push_count(out, count)
}

// Appends a number of lines.
fn push_count(out: &mut Vec<u8>, count: usize) -> Result<(), AllocError>
    ensures { OnOk result (out.new.items ≡ out.old.items ++ count_text count) }
{
    if count == 0 {
        return out.extend_from_slice(b"no line");
    }
    push_number(out, count as u64)?;
    if count == 1 {
        out.extend_from_slice(b" line")
    } else {
        out.extend_from_slice(b" lines")
    }
}

// Appends what a task cancels, and from which tick on, or that it is already cancelled.
fn push_cancels(
    out: &mut Vec<u8>,
    known: &Known<'_, '_>,
    label: &Option<Label>,
    moment: u64,
) -> Result<(), AllocError>
    ensures { OnOk result (out.new.items
        ≡ out.old.items ++ cancel_text (clock_in known.now) (cancelled_from_in known.now) (events_in known.now) label.now moment) }
{
    let Some(label) = label else {
        return Ok(());
    };
    out.extend_from_slice(b"cancels ")?;
    push_entered(out, known.entering_of(label), label)?;
    let Some(from) = next_from(known, label, moment) else {
        return out.extend_from_slice(b", which is cancelled already");
    };
    out.extend_from_slice(b" from ")?;
    push_number(out, known.clock.tick_of(from))
}

// Appends which event a task sets, or that it is already set.
fn push_sets(
    out: &mut Vec<u8>,
    known: &Known<'_, '_>,
    label: &Option<Label>,
    moment: u64,
) -> Result<(), AllocError>
    ensures { OnOk result (out.new.items ≡ out.old.items ++ set_text (cancelled_from_in known.now) label.now moment) }
{
    let Some(label) = label else {
        return Ok(());
    };
    push_labelled(out, b"sets event ", label)?;
    let Some(_) = next_from(known, label, moment) else {
        return out.extend_from_slice(b", which is set already");
    };
    Ok(())
}

// Appends that a task goes on, since an event was set.
fn push_was_set(out: &mut Vec<u8>, event: &Label) -> Result<(), AllocError>
    ensures { OnOk result (out.new.items ≡ out.old.items ++ (codes "goes on: event " ++ label_text event.now ++ codes " was set")) }
{
    push_labelled(out, b"goes on: event ", event)?;
    out.extend_from_slice(b" was set")
}

// Appends what a handler handles, and the rest of the exception.
fn push_handles(out: &mut Vec<u8>, matched: &Exc, rest: &Option<Box<Exc>>) -> Result<(), AllocError>
    ensures { OnOk result (out.new.items ≡ out.old.items
        ++ (codes "handles " ++ exc_text (exc_of matched.now) ++ with_exc (codes ", ") (unboxed_exc rest.now) (codes " propagates"))) }
{
    out.extend_from_slice(b"handles ")?;
    push_exc(out, matched)?;
    let Some(rest) = rest else {
        return Ok(());
    };
    out.extend_from_slice(b", ")?;
    push_exc(out, rest)?;
    out.extend_from_slice(b" propagates")
}

// Appends that a task runs a cleanup, and after which exception.
fn push_cleans(out: &mut Vec<u8>, exc: &Option<Box<Exc>>) -> Result<(), AllocError>
    ensures { OnOk result (out.new.items
        ≡ out.old.items ++ (codes "runs cleanup" ++ with_exc (codes " after ") (unboxed_exc exc.now) [])) }
{
    out.extend_from_slice(b"runs cleanup")?;
    push_after(out, exc)?;
    Ok(())
}

// Appends the exception after which something begins, if there is one.
fn push_after(out: &mut Vec<u8>, exc: &Option<Box<Exc>>) -> Result<(), AllocError>
    ensures { OnOk result (out.new.items ≡ out.old.items ++ with_exc (codes " after ") (unboxed_exc exc.now) []) }
{
    let Some(exc) = exc else {
        return Ok(());
    };
    out.extend_from_slice(b" after ")?;
    push_exc(out, exc)
}

// Appends the exception that is lost, and the one that replaces it.
fn push_replaces(out: &mut Vec<u8>, lost: &Exc, fresh: &Exc) -> Result<(), AllocError>
    ensures { OnOk result (out.new.items
        ≡ out.old.items ++ (codes "replaces " ++ exc_text (exc_of lost.now) ++ codes " with " ++ exc_text (exc_of fresh.now))) }
{
    out.extend_from_slice(b"replaces ")?;
    push_exc(out, lost)?;
    out.extend_from_slice(b" with ")?;
    push_exc(out, fresh)
}

// Appends that a task waits for its children.
fn push_waits(
    out: &mut Vec<u8>,
    known: &Known<'_, '_>,
    nursery: &Label,
    exc: &Option<Box<Exc>>,
    moment: u64,
) -> Result<(), AllocError>
    ensures { OnOk result (out.new.items ≡ out.old.items
        ++ (codes "waits for nursery " ++ label_text nursery.now ++ with_exc (codes " after ") (unboxed_exc exc.now) []
        ++ sign_text (clock_in known.now) (cancelled_from_in known.now) (Some nursery.now) (unboxed_exc exc.now) moment)) }
{
    out.extend_from_slice(b"waits for nursery ")?;
    push_label(out, nursery)?;
    push_after(out, exc)?;
    push_sign(out, known, nursery, exc, moment)
}

// Appends that the nursery is cancelled from the next moment on, if it is, and its child or body ends with an exception that has
// another leaf than `Cancelled`.
fn push_sign(
    out: &mut Vec<u8>,
    known: &Known<'_, '_>,
    nursery: &Label,
    exc: &Option<Box<Exc>>,
    moment: u64,
) -> Result<(), AllocError>
    ensures { OnOk result (out.new.items
        ≡ out.old.items ++ sign_text (clock_in known.now) (cancelled_from_in known.now) (Some nursery.now) (unboxed_exc exc.now) moment) }
{
    let Some(exc) = exc else {
        return Ok(());
    };
    if is_cancellation(exc) {
        return Ok(());
    }
    push_from(out, known, nursery, moment)
}

// Appends that a nursery is cancelled from the next moment on, if it is.
fn push_from(
    out: &mut Vec<u8>,
    known: &Known<'_, '_>,
    nursery: &Label,
    moment: u64,
) -> Result<(), AllocError>
    ensures { OnOk result (out.new.items
        ≡ out.old.items ++ from_text (clock_in known.now) (cancelled_from_in known.now) nursery.now moment) }
{
    let Some(from) = next_from(known, nursery, moment) else {
        return Ok(());
    };
    out.extend_from_slice(b"; nursery ")?;
    push_label(out, nursery)?;
    out.extend_from_slice(b" is cancelled from ")?;
    push_number(out, known.clock.tick_of(from))
}

// Appends the same for the nursery in which a task was started, if there is one.
fn push_home_sign(
    out: &mut Vec<u8>,
    known: &Known<'_, '_>,
    home: &Option<Label>,
    exc: &Option<Box<Exc>>,
    moment: u64,
) -> Result<(), AllocError>
    ensures { OnOk result (out.new.items
        ≡ out.old.items ++ sign_text (clock_in known.now) (cancelled_from_in known.now) home.now (unboxed_exc exc.now) moment) }
{
    let Some(nursery) = home else {
        return Ok(());
    };
    push_sign(out, known, nursery, exc, moment)
}

// Appends that a task leaves a scope or nursery, and how.
fn push_leaves(
    out: &mut Vec<u8>,
    kind: Kind,
    label: &Label,
    inside: &Option<Box<Exc>>,
    caught: bool,
    outside: &Option<Box<Exc>>,
) -> Result<(), AllocError>
    ensures { OnOk result (out.new.items
        ≡ out.old.items ++ (codes "leaves " ++ kind_text (kind_of kind) ++ label_text label.now ++ codes ": "
        ++ leaving_text (unboxed_exc inside.now) caught (unboxed_exc outside.now))) }
{
    out.extend_from_slice(b"leaves ")?;
    push_kind(out, kind)?;
    push_label(out, label)?;
    out.extend_from_slice(b": ")?;
    push_leaving(out, inside, caught, outside)?;
    Ok(())
}

// Appends how a scope or nursery is left: that its inside completed, or its exception and whether it caught a cancellation.
fn push_leaving(
    out: &mut Vec<u8>,
    inside: &Option<Box<Exc>>,
    caught: bool,
    outside: &Option<Box<Exc>>,
) -> Result<(), AllocError>
    ensures { OnOk result (out.new.items
        ≡ out.old.items ++ leaving_text (unboxed_exc inside.now) caught (unboxed_exc outside.now)) }
{
    let Some(inside) = inside else {
        return out.extend_from_slice(b"completed");
    };
    if caught {
        out.extend_from_slice(b"cancellation caught")?;
        return push_caught(out, inside, outside);
    }
    push_exc(out, inside)?;
    out.extend_from_slice(b" propagates")
}

// Appends what propagates after a cancellation was caught: the rest of the exception, or a `TooSlow` if nothing is left.
fn push_caught(
    out: &mut Vec<u8>,
    inside: &Exc,
    outside: &Option<Box<Exc>>,
) -> Result<(), AllocError>
    ensures { OnOk result (out.new.items
        ≡ out.old.items ++ caught_text (drop is_cancelled (exc_of inside.now)) (unboxed_exc outside.now)) }
{
    let Some(outside) = outside else {
        return Ok(());
    };
    if is_cancellation(inside) {
        out.extend_from_slice(b", raises ")?;
        return push_exc(out, outside);
    }
    out.extend_from_slice(b", ")?;
    push_exc(out, outside)?;
    out.extend_from_slice(b" propagates")
}

// Appends how a task ended.
fn push_end(out: &mut Vec<u8>, exc: &Option<Box<Exc>>) -> Result<(), AllocError>
    ensures { OnOk result (out.new.items ≡ out.old.items ++ end_text (unboxed_exc exc.now)) }
{
    let Some(exc) = exc else {
        return out.extend_from_slice(b"done");
    };
    push_raised(out, exc)
}

// Appends the nursery in which a task starts, if there is one.
fn push_home(out: &mut Vec<u8>, home: &Option<Label>) -> Result<(), AllocError>
    ensures { OnOk result (out.new.items ≡ out.old.items ++ home_text home.now) }
{
    let Some(nursery) = home else {
        return Ok(());
    };
    out.extend_from_slice(b" in nursery ")?;
    push_label(out, nursery)
}
