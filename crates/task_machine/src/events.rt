ghost use Rattle.std.specs.Prelude.{◌≡◌, ℕ, ◌+◌, ◌<◌, ◌^◌, None, Some, IsSome, OnOk, vec_len};
ghost use Rattle.cancel_scopes.specs.Sight.{Tick, earlier, next};
ghost use Rattle.task_machine.specs.Labels.{Updates, event_in};

use std::alloc::AllocError;

/// An open event.
#[derive(Clone, Copy)]
pub(crate) struct EventState {
    /// The moment from which it is set, or `None` while nothing has set it.
    pub(crate) set: Option<u64>,
}

// Adds an event with this key, which nothing has set. Every other key keeps its own.
pub(crate) fn put_event(events: &mut Vec<Option<EventState>>, key: usize) -> Result<(), AllocError>
    ensures { OnOk result (Updates (event_in events.old.items) (event_in events.new.items) key (Some None)) }
{
    make_room(events, key)?;
    events[key] = Some(EventState { set: None });
    Ok(())
}

// Every key up to this one has a place afterwards, and keeps its event.
fn make_room(events: &mut Vec<Option<EventState>>, key: usize) -> Result<(), AllocError>
    ensures room { OnOk result (key < vec_len events.new) }
    ensures keeps { OnOk result ((at : ℕ) → event_in events.new.items at ≡ event_in events.old.items at) }
{
    'places: while events.len() <= key {
        events.push(None)?;
    }
    Ok(())
}

// Returns the moment from which the event with this key is set, if it is one: `Some(None)` while nothing has set it.
pub(crate) fn event_of(events: &Vec<Option<EventState>>, key: usize) -> Option<Option<u64>>
    ensures { result ≡ event_in events.now.items key }
{
    match events.get(key) {
        Some(Some(event)) => Some(event.set),
        Some(None) => None,
        None => None,
    }
}

// Removes the event with this key, if it is one, and returns the moment from which it is set. Every other key keeps its own.
pub(crate) fn take_event(events: &mut Vec<Option<EventState>>, key: usize) -> Option<Option<u64>>
    ensures event { result ≡ event_in events.old.items key }
    ensures taken { Updates (event_in events.old.items) (event_in events.new.items) key None }
{
    let event = event_of(events, key)?;
    events[key] = None;
    Some(event)
}

// Sets the event with this key in a moment, which others see from the next one on. Every other key keeps its own.
pub(crate) fn lower_event(events: &mut Vec<Option<EventState>>, key: usize, moment: u64)
    requires event { IsSome (event_in events.old.items key) }
    requires moment { moment + 1 < 2 ^ 63 }
    ensures { (from : Tick) → event_in events.old.items key ≡ Some from →
        Updates (event_in events.old.items) (event_in events.new.items) key (Some (earlier from (next (Some moment)))) }
{
    let Some(event) = events[key] else {
        unreachable!()
    };
    let seen = moment + 1;
    let set = match event.set {
        Some(from) => from.min(seen),
        None => seen,
    };
    events[key] = Some(EventState { set: Some(set) });
}
