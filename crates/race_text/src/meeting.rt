ghost use Rattle.std.specs.Prelude.{◌≡◌, IfOk, map};
ghost use Rattle.std.specs.Option.{option_map};
ghost use Rattle.story_index.specs.Seen.{event_in};
ghost use Rattle.race_text.specs.Copies.{differ_last, is_within, meets, first_meeting, earlier_meeting, first_meeting_among, meeting_in};
ghost use Rattle.race_text.specs.CopyViews.{sight_held, met_held, meeting_held};

use crate::acts::{concerns, may_meet};
use crate::sights::{Sight, sights_of};
use exceptions::Label;
use job_meaning::Clock;
use job_story::Event;
use job_tree::Name;
use std::alloc::{AllocError, Global};

/// Two copies of a task that meet.
#[derive(Drop)]
pub struct Meeting {
    /// The copy that cancels something, or does something to a limiter or channel. A descendant of the copy may do it.
    pub one: Label,
    /// The copy to which something happens within a hair of that, or which does something to the same limiter or channel. A
    /// descendant of the copy may do it.
    pub other: Label,
    /// The tick in which the first copy does so.
    pub tick: u64,
}

// Two copies of a task that meet, with borrowed labels.
#[derive(Clone, Copy)]
struct Met<'e> {
    one: &'e Label,
    other: &'e Label,
    tick: u64,
}

/// Returns the earliest meeting of two tasks with this name that one `start .. over` started together, or that a `start` started
/// in two passes of the `repeat` that it is in, or `None` if there is none: their indices differ only in the last one. They meet
/// if one of them, or a descendant of it, cancels something, and the other, or a descendant of it, has an event at most a hair
/// earlier or later that is neither a start nor a cancellation. They also meet if, at most a hair apart, one of them waits in the
/// queue of a limiter or channel, uses a channel or closes it, and the other asks the same one for something or closes it. In
/// which rounds of their ticks the events are does not matter. If several meetings are in the same tick, the first in the order
/// of the walk is returned. `walked` are the events of a story in the order of the walk, `clock` is how their time is counted,
/// and `hair` is a number of ticks. The only error is that memory runs out.
pub fn meeting_of(
    alloc: Global,
    clock: Clock,
    hair: u64,
    name: Name,
    walked: &[&Event],
) -> Result<Option<Meeting>, AllocError>
    ensures { IfOk result (λ found. option_map meeting_held found ≡ meeting_in clock hair name (map event_in walked.now)) }
{
    let sights = sights_of(alloc, clock, name, walked)?;
    let Some(met) = first_meeting_among(hair, sights.as_slice()) else {
        return Ok(None);
    };
    Ok(Some(Meeting {
        one: met.one.copy(alloc)?,
        other: met.other.copy(alloc)?,
        tick: met.tick,
    }))
}

// Returns the first meeting among the events of copies.
fn first_meeting_among<'e>(hair: u64, sights: &[Sight<'e>]) -> Option<Met<'e>>
    ensures { option_map met_held result ≡ first_meeting_among hair (map sight_held sights.now) (map sight_held sights.now) }
{
    let mut found = None;
    let mut left = sights.len();
    'sights: while left > 0 {
        left -= 1;
        found = earlier_meeting(first_meeting(hair, sights[left], sights), found);
    }
    found
}

// Returns the first of these events that an event of a copy meets.
fn first_meeting<'e>(hair: u64, one: Sight<'e>, sights: &[Sight<'e>]) -> Option<Met<'e>>
    ensures { option_map met_held result ≡ first_meeting hair (sight_held one.entry) (map sight_held sights.now) }
{
    if !may_meet(&one.event.what) {
        return None;
    }
    'sights: for other in sights {
        if meets(hair, one, *other) {
            return Some(Met {
                one: one.copy,
                other: other.copy,
                tick: one.tick,
            });
        }
    }
    None
}

// Returns the earlier of two meetings, or the first if both are in the same tick.
fn earlier_meeting<'e>(first: Option<Met<'e>>, second: Option<Met<'e>>) -> Option<Met<'e>>
    ensures { option_map met_held result ≡ earlier_meeting (option_map met_held first.entry) (option_map met_held second.entry) }
{
    let Some(met) = first else {
        return second;
    };
    let Some(other) = second else {
        return first;
    };
    if met.tick <= other.tick {
        first
    } else {
        second
    }
}

// Returns whether the first of two events concerns the second one, and that is of another copy, and within a hair of it.
fn meets(hair: u64, one: Sight<'_>, other: Sight<'_>) -> bool
    ensures { result ≡ meets hair (sight_held one.entry) (sight_held other.entry) }
{
    concerns(&one.event.what, &other.event.what)
        && differ_last(one.copy.indices(), other.copy.indices())
        && is_within(hair, one.tick, other.tick)
}

// Returns whether two ticks are at most a hair apart.
fn is_within(hair: u64, t: u64, u: u64) -> bool
    ensures { result ≡ is_within hair t u }
{
    t.saturating_sub(hair) <= u && u.saturating_sub(hair) <= t
}

// Returns whether these indices differ only in the last one.
fn differ_last(one: &[u64], other: &[u64]) -> bool
    ensures { result ≡ differ_last one.now other.now }
{
    let Some((i, is)) = one.split_last() else {
        return false;
    };
    let Some((j, js)) = other.split_last() else {
        return false;
    };
    i != j && is == js
}
