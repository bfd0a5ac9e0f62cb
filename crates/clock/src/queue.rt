ghost use Rattle.std.specs.Prelude.{None, Some, ◌≡◌, ◌<◌, OnOk, OnErr, MatchOption, length};
ghost use Rattle.clock.specs.Ticks.{IsSame};

use std::alloc::{AllocError, Global};
use std::collections::BTreeSet;
use std::marker::Model;

/// A map with at most one tick for each key, which can be searched by key and by tick.
#[derive(Drop)]
pub struct TickQueue {
    // The tick of each key, at the key's index. A key past the end has no tick.
    ticks: Vec<Option<u64>>,
    // Each tick with its key, sorted by tick, and then by key.
    order: BTreeSet<(u64, usize)>,
}

impl Model for TickQueue {
    ghost use Rattle.std.specs.Prelude.{ℕ, List, Option};

    ghost Value = { List (Option ℕ) };

    ghost use Rattle.clock.specs.KeptTicks.{Agree};

    ghost view = { λ q. q.ticks.items };

    ghost invariant = { λ q. Agree q.ticks.items q.order };
}

impl TickQueue {
    ghost use Rattle.clock.specs.Ticks.{tick_in, HasNone, IsFirst, Puts};

    /// Creates a queue in which no key has a tick. Does not allocate.
    pub fn new(alloc: Global) -> TickQueue
        ensures { HasNone result }
    {
        TickQueue {
            ticks: Vec::new(alloc),
            order: BTreeSet::new(alloc),
        }
    }

    /// Sets the tick of a key. The caller must ensure that the key has no tick yet. Returns `AllocError` if memory runs out;
    /// every key then keeps its tick.
    pub fn add(&mut self, key: usize, tick: u64) -> Result<(), AllocError>
        requires { tick_in self.old key ≡ None }
        ensures ok { OnOk result (Puts self.old self.new key (Some tick)) }
        ensures err { OnErr result (IsSame self.old self.new) }
    {
        self.set(key, tick)
    }

    /// Sets the tick of a key, in place of the one that it has, if it has one. Returns `AllocError` if memory runs out; every
    /// key then keeps its tick.
    pub fn set(&mut self, key: usize, tick: u64) -> Result<(), AllocError>
        ensures ok { OnOk result (Puts self.old self.new key (Some tick)) }
        ensures err { OnErr result (IsSame self.old self.new) }
    {
        grow_to(&mut self.ticks, key)?;
        self.order.insert((tick, key))?;
        if let Some(old) = self.ticks[key].replace(tick) {
            if old != tick {
                self.order.remove(&(old, key));
            }
        }
        Ok(())
    }

    /// Removes the tick of a key, if it has one. Does not allocate.
    pub fn remove(&mut self, key: usize)
        ensures { Puts self.old self.new key None }
    {
        let Some(slot) = self.ticks.get_mut(key) else {
            return;
        };
        let Some(tick) = slot.take() else {
            return;
        };
        self.order.remove(&(tick, key));
    }

    /// Returns the earliest tick and the least key that has it, or `None` if no key has a tick.
    pub fn first(&self) -> Option<(u64, usize)>
        ensures { MatchOption result (HasNone self.now) (λ first. IsFirst self.now first.0 first.1) }
    {
        self.order.first().copied()
    }
}

// Extends the table so that the key has an entry in it. No key's tick changes. Returns `AllocError` if memory runs out.
pub(crate) fn grow_to(ticks: &mut Vec<Option<u64>>, key: usize) -> Result<(), AllocError>
    ensures room { OnOk result (key < length ticks.new.items) }
    ensures same { IsSame ticks.old.items ticks.new.items }
{
    if key < ticks.len() {
        return Ok(());
    }
    let Some(count) = key.checked_add(1) else {
        return Err(AllocError);
    };
    ticks.resize(count, None)
}
