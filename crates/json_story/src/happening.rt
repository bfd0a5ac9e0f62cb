ghost use Rattle.std.specs.Prelude.{◌≡◌, ◌++◌, [], ◌∷◌, Some, take, map, IfOk, OnOk, codes};
ghost use Rattle.serde_json.specs.Data.{boolean, put as with_member};
ghost use Rattle.serde_json.specs.View.{view, members_view};
ghost use Rattle.exceptions.specs.Held.{exc_of};
ghost use Rattle.block_exits.specs.Held.{kind_of};
ghost use Rattle.job_story.specs.Held.{unboxed_exc, during_of, span_in, happening_of};
ghost use Rattle.json_story.specs.Values.{integer, list_of, label_json, exc_json};
ghost use Rattle.job_meaning.specs.Clocks.{tick_of};
ghost use Rattle.json_story.specs.Events.{moment_json, label_or_null, exc_or_null, why_json, cancel_from, failure_from, kind_key, span_json, happening_word, with_during, with_happening};
ghost use Rattle.json_story.specs.Known.{clock_in, events_in, cancelled_from_in};

use crate::acts::why_value;
use crate::asks::{object_word, put_ask, put_size};
use crate::known::Known;
use crate::optional::{exc_or_null, label_or_null, moment_value};
use crate::{exc_value, label_value, text_value};
use exceptions::{Exc, Label};
use job_meaning::Clock;
use job_story::{During, Happening, Kind, Span};
use serde_json::{Map, Value, json, put};
use std::alloc::{AllocError, Global};

// Returns the word for what happens.
pub(crate) fn happening_word(happening: &Happening) -> &'static str
    ensures { result.now ≡ happening_word (happening_of happening.now) }
{
    match happening {
        Happening::Enters { .. } => "enters",
        Happening::EntersEvent { .. } => "enters_event",
        Happening::Sleeps { .. } => "sleeps",
        Happening::IsCancelled { .. } => "cancelled",
        Happening::Finds { .. } => "finds",
        Happening::Misses { .. } => "misses",
        Happening::Raises { .. } => "raises",
        Happening::Cancels { .. } => "cancels",
        Happening::Sets { .. } => "sets",
        Happening::Awaits { .. } => "waits_for_event",
        Happening::WasSet { .. } => "goes_on",
        Happening::EntersObject { kind, .. } => object_word(*kind),
        Happening::Queues { .. } => "queues",
        Happening::Gets { .. } => "is_granted",
        Happening::FindsClosed { .. } => "finds_closed",
        Happening::Deadlocks { .. } => "deadlocks",
        Happening::GivesTokenBack { .. } => "gives_token_back",
        Happening::ClosesChannel { .. } => "closes",
        Happening::Handles { .. } => "handles",
        Happening::Cleans { .. } => "cleanup",
        Happening::Replaces { .. } => "replaces",
        Happening::Waits { .. } => "waits",
        Happening::Leaves { .. } => "leaves",
    }
}

// Adds the data of what happens in a moment.
pub(crate) fn put_happening(
    members: &mut Map<String, Value>,
    alloc: Global,
    known: &Known<'_, '_>,
    moment: u64,
    happening: &Happening,
) -> Result<(), AllocError>
    ensures { OnOk result (members_view members.new.entries
        ≡ with_happening (clock_in known.now) (cancelled_from_in known.now) (events_in known.now) moment
        (happening_of happening.now) (members_view members.old.entries)) }
{
    match happening {
        Happening::Enters {
            kind,
            label,
            deadline,
            shield,
        } => {
            put_kind(members, alloc, *kind, label)?;
            put_deadline_and_shield(members, alloc, known.clock, *deadline, *shield)
        }
        Happening::EntersEvent { label } => put_label(members, alloc, label),
        Happening::Sleeps { until } => {
            put(members, alloc, "until", moment_value(known.clock, *until))
        }
        Happening::IsCancelled {
            by,
            during,
            in_cleanup,
        } => put_cancelled(members, alloc, known, by, during, *in_cleanup),
        Happening::Finds { lines } => put_lines(members, alloc, lines.as_slice()),
        Happening::Misses { name } | Happening::Raises { name } => {
            let text = text_value(alloc, name.bytes())?;
            put(members, alloc, "name", text)
        }
        Happening::Cancels { label } | Happening::Sets { label } => {
            put_cancels(members, alloc, known, label, moment)
        }
        Happening::Awaits { event } | Happening::WasSet { event } => {
            put_label(members, alloc, event)
        }
        Happening::EntersObject { kind, label } => {
            put_size(members, alloc, *kind)?;
            put_label(members, alloc, label)
        }
        Happening::Queues { ask, object, .. } | Happening::Deadlocks { ask, object } => {
            put_ask(members, alloc, *ask, "label", object)
        }
        Happening::Gets {
            ask,
            object,
            at_once,
        }
        | Happening::FindsClosed {
            ask,
            object,
            at_once,
        } => {
            put_ask(members, alloc, *ask, "label", object)?;
            put(members, alloc, "at_once", Value::Bool(at_once.is_some()))
        }
        Happening::GivesTokenBack { object } => put_label(members, alloc, object),
        Happening::ClosesChannel { object } => {
            let label = label_or_null(alloc, object)?;
            put(members, alloc, "label", label)
        }
        Happening::Handles { matched, rest } => put_handles(members, alloc, matched, rest),
        Happening::Cleans { exc } => {
            let exception = exc_or_null(alloc, exc)?;
            put(members, alloc, "exception", exception)
        }
        Happening::Replaces { lost, fresh } => put_replaces(members, alloc, lost, fresh),
        Happening::Waits { nursery, exc } => put_waits(members, alloc, known, nursery, exc, moment),
        Happening::Leaves {
            kind,
            label,
            inside,
            caught,
            outside,
        } => {
            put_kind(members, alloc, *kind, label)?;
            put_leaving(members, alloc, inside, *caught, outside)
        }
    }
}

// Adds the label of a scope or nursery under the word for its kind.
fn put_kind(
    members: &mut Map<String, Value>,
    alloc: Global,
    kind: Kind,
    label: &Label,
) -> Result<(), AllocError>
    ensures { OnOk result (members_view members.new.entries
        ≡ with_member (kind_key (kind_of kind)) (label_json label.now) (members_view members.old.entries)) }
{
    let text = label_value(alloc, label)?;
    match kind {
        Kind::Scope { .. } => put(members, alloc, "scope", text),
        Kind::Nursery => put(members, alloc, "nursery", text),
    }
}

// Adds the deadline and the shield with which a scope or nursery is entered.
fn put_deadline_and_shield(
    members: &mut Map<String, Value>,
    alloc: Global,
    clock: Clock,
    deadline: Option<u64>,
    shield: bool,
) -> Result<(), AllocError>
    ensures { OnOk result (members_view members.new.entries
        ≡ with_member (codes "shield") (boolean shield) (with_member (codes "deadline") (moment_json clock deadline)
        (members_view members.old.entries))) }
{
    put(members, alloc, "deadline", moment_value(clock, deadline))?;
    put(members, alloc, "shield", Value::Bool(shield))
}

// Adds by which scope or nursery a task is cancelled, why that is, what the task did, and whether it was in a
// cleanup.
fn put_cancelled(
    members: &mut Map<String, Value>,
    alloc: Global,
    known: &Known<'_, '_>,
    by: &Option<Label>,
    during: &During,
    in_cleanup: bool,
) -> Result<(), AllocError>
    ensures { OnOk result (members_view members.new.entries ≡ with_member (codes "in_cleanup") (boolean in_cleanup)
        (with_during (clock_in known.now) (during_of during.now)
        (with_member (codes "why") (why_json (clock_in known.now) (cancelled_from_in known.now) (events_in known.now) by.now)
        (with_member (codes "by") (label_or_null by.now) (members_view members.old.entries))))) }
{
    let label = label_or_null(alloc, by)?;
    put(members, alloc, "by", label)?;
    let why = why_value(alloc, known, by)?;
    put(members, alloc, "why", why)?;
    put_during(members, alloc, known.clock, during)?;
    put(members, alloc, "in_cleanup", Value::Bool(in_cleanup))
}

// Adds since when a task slept or waited that is cancelled, for which event it waited, if for one, and what it asked or was to ask.
fn put_during(
    members: &mut Map<String, Value>,
    alloc: Global,
    clock: Clock,
    during: &During,
) -> Result<(), AllocError>
    ensures { OnOk result (members_view members.new.entries
        ≡ with_during clock (during_of during.now) (members_view members.old.entries)) }
{
    match during {
        During::Checkpoint => put(members, alloc, "since", Value::Null),
        During::Sleeping { since } => put_since(members, alloc, clock, *since),
        During::Waiting { event, since } => put_waiting(members, alloc, clock, event, *since),
        During::InQueue { ask, object, since } => {
            put_since(members, alloc, clock, *since)?;
            put_ask(members, alloc, *ask, "waiting_for", object)
        }
        During::BeforeAsking { ask, object } => {
            put(members, alloc, "since", Value::Null)?;
            put_ask(members, alloc, *ask, "before_asking", object)
        }
    }
}

// Adds since when a task waited for an event, and for which one.
fn put_waiting(
    members: &mut Map<String, Value>,
    alloc: Global,
    clock: Clock,
    event: &Label,
    since: u64,
) -> Result<(), AllocError>
    ensures { OnOk result (members_view members.new.entries ≡ with_member (codes "waiting_for") (label_json event.now)
        (with_member (codes "since") (integer (tick_of clock since)) (members_view members.old.entries))) }
{
    put_since(members, alloc, clock, since)?;
    let label = label_value(alloc, event)?;
    put(members, alloc, "waiting_for", label)
}

// Adds since when a task did something.
fn put_since(
    members: &mut Map<String, Value>,
    alloc: Global,
    clock: Clock,
    since: u64,
) -> Result<(), AllocError>
    ensures { OnOk result (members_view members.new.entries
        ≡ with_member (codes "since") (integer (tick_of clock since)) (members_view members.old.entries)) }
{
    put(members, alloc, "since", Value::from(clock.tick_of(since)))
}

// Adds the label of an event of the job, a limiter or a channel.
fn put_label(
    members: &mut Map<String, Value>,
    alloc: Global,
    label: &Label,
) -> Result<(), AllocError>
    ensures { OnOk result (members_view members.new.entries
        ≡ with_member (codes "label") (label_json label.now) (members_view members.old.entries)) }
{
    let text = label_value(alloc, label)?;
    put(members, alloc, "label", text)
}

// Adds the places of the lines that a kernel answered. The event itself is written by `push_found`, without values.
fn put_lines(
    members: &mut Map<String, Value>,
    alloc: Global,
    lines: &[Span],
) -> Result<(), AllocError>
    ensures { OnOk result (members_view members.new.entries
        ≡ with_member (codes "lines") (list_of (map span_json (map span_in lines.now))) (members_view members.old.entries)) }
{
    let values = span_values(alloc, lines)?;
    put(members, alloc, "lines", Value::Array(values))
}

// Returns the places of lines.
fn span_values(alloc: Global, lines: &[Span]) -> Result<Vec<Value>, AllocError>
    ensures { IfOk result (λ values. map view values.items ≡ map span_json (map span_in lines.now)) }
{
    let mut values = Vec::new(alloc);
    'lines: for line in lines {
        let value = span_value(alloc, *line)?;
        values.push(value)?;
    }
    Ok(values)
}

// Returns the place of a line.
fn span_value(alloc: Global, line: Span) -> Result<Value, AllocError>
    ensures { IfOk result (λ value. view value ≡ span_json (span_in line)) }
{
    json!(in alloc; {"at": line.at, "length": line.len})
}

// Adds what a task cancels or sets, and from which tick on, unless that is cancelled or set already.
fn put_cancels(
    members: &mut Map<String, Value>,
    alloc: Global,
    known: &Known<'_, '_>,
    label: &Option<Label>,
    moment: u64,
) -> Result<(), AllocError>
    ensures { OnOk result (members_view members.new.entries
        ≡ with_member (codes "from") (moment_json (clock_in known.now) (cancel_from (cancelled_from_in known.now) label.now moment))
        (with_member (codes "label") (label_or_null label.now) (members_view members.old.entries))) }
{
    let text = label_or_null(alloc, label)?;
    put(members, alloc, "label", text)?;
    put(
        members,
        alloc,
        "from",
        moment_value(known.clock, known.cancel_from(label, moment)),
    )
}

// Adds what a handler handles, and what is left of the exception.
fn put_handles(
    members: &mut Map<String, Value>,
    alloc: Global,
    matched: &Exc,
    rest: &Option<Box<Exc>>,
) -> Result<(), AllocError>
    ensures { OnOk result (members_view members.new.entries ≡ with_member (codes "rest") (exc_or_null (unboxed_exc rest.now))
        (with_member (codes "matched") (exc_json (exc_of matched.now)) (members_view members.old.entries))) }
{
    let handled = exc_value(alloc, matched)?;
    put(members, alloc, "matched", handled)?;
    let left = exc_or_null(alloc, rest)?;
    put(members, alloc, "rest", left)
}

// Adds the exception that is lost, and the one that replaces it.
fn put_replaces(
    members: &mut Map<String, Value>,
    alloc: Global,
    lost: &Exc,
    fresh: &Exc,
) -> Result<(), AllocError>
    ensures { OnOk result (members_view members.new.entries ≡ with_member (codes "fresh") (exc_json (exc_of fresh.now))
        (with_member (codes "lost") (exc_json (exc_of lost.now)) (members_view members.old.entries))) }
{
    let before = exc_value(alloc, lost)?;
    put(members, alloc, "lost", before)?;
    let after = exc_value(alloc, fresh)?;
    put(members, alloc, "fresh", after)
}

// Adds the nursery that a task waits for, with what its body ended, and from which tick on that cancels the
// nursery.
fn put_waits(
    members: &mut Map<String, Value>,
    alloc: Global,
    known: &Known<'_, '_>,
    nursery: &Label,
    exc: &Option<Box<Exc>>,
    moment: u64,
) -> Result<(), AllocError>
    ensures { OnOk result (members_view members.new.entries
        ≡ with_member (codes "from") (moment_json (clock_in known.now)
        (failure_from (cancelled_from_in known.now) (Some nursery.now) (unboxed_exc exc.now) moment))
        (with_member (codes "exception") (exc_or_null (unboxed_exc exc.now))
        (with_member (codes "nursery") (label_json nursery.now) (members_view members.old.entries)))) }
{
    let label = label_value(alloc, nursery)?;
    put(members, alloc, "nursery", label)?;
    let exception = exc_or_null(alloc, exc)?;
    put(members, alloc, "exception", exception)?;
    put(
        members,
        alloc,
        "from",
        moment_value(known.clock, known.body_from(nursery, exc, moment)),
    )
}

// Adds the exception with which a scope or nursery is left, whether it caught a cancellation, and what
// propagates.
fn put_leaving(
    members: &mut Map<String, Value>,
    alloc: Global,
    inside: &Option<Box<Exc>>,
    caught: bool,
    outside: &Option<Box<Exc>>,
) -> Result<(), AllocError>
    ensures { OnOk result (members_view members.new.entries ≡ with_member (codes "outside") (exc_or_null (unboxed_exc outside.now))
        (with_member (codes "caught") (boolean caught) (with_member (codes "inside") (exc_or_null (unboxed_exc inside.now))
        (members_view members.old.entries)))) }
{
    let before = exc_or_null(alloc, inside)?;
    put(members, alloc, "inside", before)?;
    put(members, alloc, "caught", Value::Bool(caught))?;
    let after = exc_or_null(alloc, outside)?;
    put(members, alloc, "outside", after)
}
