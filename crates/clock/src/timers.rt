ghost use Rattle.std.specs.Prelude.{None, Some, ◌≡◌, ◌≢◌, ◌≤◌, ◌⊎◌, false, [], MatchBool, OnOk, OnErr, MatchOption};
ghost use Rattle.clock.specs.KeptTimers.{HasNoPair, IsEarlierOf, IsFirstLive, IsFirstOf, IsFirstPair, KeepsLive, NoPairBy, NoneLive};

use crate::key_list::KeyList;
use crate::queue::grow_to;
use std::alloc::{AllocError, Global};
use std::collections::BTreeSet;
use std::marker::Model;

// The timers of a clock: at most one tick for each key. Those that are due at one tick soon after they are set are in a list of
// their own, which is sorted only when the first of them is taken.
#[derive(Drop)]
pub(crate) struct Timers {
    // No jump goes past this tick, so timers that are due later are in no order.
    horizon: u64,
    // The tick of each key, at the key's index. A key past the end has no tick.
    ticks: Vec<Option<u64>>,
    // Each tick by the horizon with its key, sorted by tick, and then by key, except for those in `soon`.
    order: BTreeSet<(u64, usize)>,
    // The tick of the keys in `soon`, at most the horizon.
    soon_tick: u64,
    // Keys that had the tick `soon_tick` when they were added.
    soon: KeyList,
}

impl Model for Timers {
    ghost use Rattle.clock.specs.KeptTimers.{AllKept, HeldTimers};

    ghost Value = { HeldTimers };

    ghost view = { λ t. record { horizon = t.horizon; ticks = t.ticks.items } };

    ghost invariant = { λ t. AllKept t.horizon t.ticks.items t.order t.soon_tick t.soon };
}

impl Timers {
    ghost use Rattle.clock.specs.Ticks.{tick_in, HasNone, IsFirst, IsSame, Puts};
    ghost use Rattle.clock.specs.KeptTimers.{AllAfter, IsEarliest};

    // Creates `Timers` in which no key has a tick, for a clock that jumps to no tick later than `horizon`. Does not allocate.
    pub(crate) fn new(alloc: Global, horizon: u64) -> Timers
        ensures none { HasNone result.ticks }
        ensures horizon { result.horizon ≡ horizon }
    {
        Timers {
            horizon,
            ticks: Vec::new(alloc),
            order: BTreeSet::new(alloc),
            soon_tick: 0,
            soon: KeyList::new(alloc),
        }
    }

    // Sets the tick of a key. A tick by `soon_by` is soon. The caller must ensure that the key has no tick yet. Returns
    // `AllocError` if memory runs out; every key then keeps its tick.
    pub(crate) fn add(&mut self, key: usize, tick: u64, soon_by: u64) -> Result<(), AllocError>
        requires { tick_in self.old.ticks key ≡ None }
        ensures ok { OnOk result (Puts self.old.ticks self.new.ticks key (Some tick)) }
        ensures err { OnErr result (IsSame self.old.ticks self.new.ticks) }
        ensures horizon { self.new.horizon ≡ self.old.horizon }
    {
        grow_to(&mut self.ticks, key)?;
        if tick > self.horizon {
            self.ticks[key] = Some(tick);
            return Ok(());
        }
        if is_soon(&self.soon, self.soon_tick, tick, soon_by) {
            self.soon.push(key)?;
            self.soon_tick = tick;
            self.ticks[key] = Some(tick);
            return Ok(());
        }
        self.order.insert((tick, key))?;
        self.ticks[key] = Some(tick);
        Ok(())
    }

    // Removes the tick of a key, if it has one. Does not allocate.
    pub(crate) fn remove(&mut self, key: usize)
        ensures ticks { Puts self.old.ticks self.new.ticks key None }
        ensures horizon { self.new.horizon ≡ self.old.horizon }
    {
        let Some(slot) = self.ticks.get_mut(key) else {
            return;
        };
        let Some(tick) = slot.take() else {
            return;
        };
        if tick > self.horizon {
            return;
        }
        if self.soon.take_last(key) && tick == self.soon_tick {
            return;
        }
        self.order.remove(&(tick, key));
    }

    // Returns the earliest tick of all, or `None` if no key has a tick by the horizon. Does not allocate.
    pub(crate) fn first_tick(&mut self) -> Option<u64>
        ensures same { IsSame self.old.ticks self.new.ticks }
        ensures horizon { self.new.horizon ≡ self.old.horizon }
        ensures first { MatchOption result (AllAfter self.old.ticks self.old.horizon) (IsEarliest self.old.ticks) }
    {
        let is_soon = self.soon.has_live(&self.ticks, self.soon_tick);
        let later = first_pair(&self.order);
        earlier_tick(is_soon, self.soon_tick, later)
    }

    // Returns the earliest tick and the least key that has it, or `None` if no key has a tick by `now`. The caller must ensure
    // that `now` is not later than the horizon. Does not allocate.
    pub(crate) fn first_by(&mut self, now: u64) -> Option<(u64, usize)>
        requires { now ≤ self.old.horizon }
        ensures same { IsSame self.old.ticks self.new.ticks }
        ensures horizon { self.new.horizon ≡ self.old.horizon }
        ensures first { MatchOption result (AllAfter self.old.ticks now) (λ first. (first.0 ≤ now) × IsFirst self.old.ticks first.0 first.1) }
    {
        let soon = soon_by(&mut self.soon, &self.ticks, self.soon_tick, now);
        let later = later_by(&self.order, now);
        first_of(soon, self.soon_tick, later)
    }
}

// Whether a timer for this tick joins those in `soon`: it has their tick, or there is none of them and it is due soon.
fn is_soon(soon: &KeyList, soon_tick: u64, tick: u64, soon_by: u64) -> bool
    ensures { MatchBool result ((soon.now ≡ []) ⊎ (tick ≡ soon_tick)) ((soon.now ≡ []) ⊎ (tick ≢ soon_tick)) }
{
    if soon.is_empty() {
        return tick <= soon_by;
    }
    tick == soon_tick
}

// The first pair, or `None` if there is none.
fn first_pair(order: &BTreeSet<(u64, usize)>) -> Option<(u64, usize)>
    ensures { MatchOption result (HasNoPair order.now) (IsFirstPair order.now) }
{
    order.first().copied()
}

// The first pair, or `None` if there is none or its tick is later than `now`.
fn later_by(order: &BTreeSet<(u64, usize)>, now: u64) -> Option<(u64, usize)>
    ensures { MatchOption result (NoPairBy order.now now) (λ first. (first.0 ≤ now) × IsFirstPair order.now first) }
{
    let Some((tick, key)) = first_pair(order) else {
        return None;
    };
    if tick > now {
        return None;
    }
    Some((tick, key))
}

// The least key of those that are due soon, or `None` if there is none or their tick is later than `now`. The keys are sorted
// only once their tick has come, when none joins them any more.
fn soon_by(soon: &mut KeyList, ticks: &[Option<u64>], soon_tick: u64, now: u64) -> Option<usize>
    ensures kept { KeepsLive ticks.now soon_tick soon.old soon.new }
    ensures first { MatchOption result (soon_tick ≤ now → NoneLive ticks.now soon_tick soon.old) (λ key. (soon_tick ≤ now) × IsFirstLive ticks.now soon_tick soon.old key) }
{
    if soon_tick > now {
        return None;
    }
    soon.first_live(ticks, soon_tick)
}

// The earlier of `soon_tick`, if `is_soon`, and the tick of `later`.
fn earlier_tick(is_soon: bool, soon_tick: u64, later: Option<(u64, usize)>) -> Option<u64>
    ensures { MatchOption result ((is_soon ≡ false) × (later ≡ None)) (IsEarlierOf is_soon soon_tick later) }
{
    let Some((tick, _)) = later else {
        return is_soon.then_some(soon_tick);
    };
    if is_soon && soon_tick < tick {
        return Some(soon_tick);
    }
    Some(tick)
}

// The earlier of the tick of `soon` and that of `later`, with its key; the least key if both have the same tick.
fn first_of(
    soon: Option<usize>,
    soon_tick: u64,
    later: Option<(u64, usize)>,
) -> Option<(u64, usize)>
    ensures { MatchOption result ((soon ≡ None) × (later ≡ None)) (IsFirstOf soon soon_tick later) }
{
    let Some(key) = soon else {
        return later;
    };
    let Some((tick, other)) = later else {
        return Some((soon_tick, key));
    };
    if tick < soon_tick || tick == soon_tick && other < key {
        return Some((tick, other));
    }
    Some((soon_tick, key))
}
