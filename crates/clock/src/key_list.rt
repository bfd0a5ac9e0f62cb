ghost use Rattle.std.specs.Prelude.{◌≡◌, ◌++◌, ◌∷◌, [], ◌-◌, true, false, length, MatchBool, MatchOption, OnOk, OnErr, IsTrue};
ghost use Rattle.std.specs.List.{slice_get, Contains};
ghost use Rattle.std.specs.List.Sorted.{IsPermutation};
ghost use Rattle.clock.specs.Ticks.{tick_in};
ghost use Rattle.clock.specs.KeptTimers.{Falls, KeepsLive, is_stale};

use std::alloc::{AllocError, Global};
use std::marker::Model;

// Keys in a list. It is sorted only when the least of them is asked for, and not again until a key is added. A key may have
// lost its tick meanwhile, or have another one: it is then stale, and is dropped once it is the last.
#[derive(Drop)]
pub(crate) struct KeyList {
    keys: Vec<usize>,
    // Whether the keys are sorted, the least last.
    is_sorted: bool,
}

impl Model for KeyList {
    ghost use Rattle.std.specs.Prelude.{ℕ, List, ◌≡◌, true};

    ghost Value = { List ℕ };

    ghost use Rattle.clock.specs.KeptTimers.{Falls};

    ghost view = { λ l. l.keys.items };

    ghost invariant = { λ l. l.is_sorted ≡ true → Falls l.keys.items };
}

impl KeyList {
    ghost use Rattle.clock.specs.KeptTimers.{HasLive, IsFirstLive, KeepsOthers, NoneLive};

    // Creates an empty list. Does not allocate.
    pub(crate) fn new(alloc: Global) -> KeyList
        ensures { result ≡ [] }
    {
        KeyList {
            keys: Vec::new(alloc),
            is_sorted: true,
        }
    }

    // Whether the list has no key, not even a stale one.
    pub(crate) fn is_empty(&self) -> bool
        ensures { IsTrue result → self.now ≡ [] }
    {
        self.keys.is_empty()
    }

    // Adds a key. Returns `AllocError` if memory runs out; nothing changes then.
    pub(crate) fn push(&mut self, key: usize) -> Result<(), AllocError>
        ensures ok { OnOk result (self.new ≡ self.old ++ key ∷ []) }
        ensures err { OnErr result (self.new ≡ self.old) }
    {
        self.keys.push(key)?;
        self.is_sorted = false;
        Ok(())
    }

    // Whether a key in the list has this tick. Drops stale keys. Does not allocate.
    pub(crate) fn has_live(&mut self, ticks: &[Option<u64>], tick: u64) -> bool
        ensures kept { KeepsLive ticks.now tick self.old self.new }
        ensures live { MatchBool result (HasLive ticks.now tick) (NoneLive ticks.now tick self.old) }
    {
        drop_stale(&mut self.keys, ticks, tick);
        self.keys.last().is_some()
    }

    // Returns the least key of those with this tick, or `None` if there is none. Drops stale keys. Does not allocate.
    pub(crate) fn first_live(&mut self, ticks: &[Option<u64>], tick: u64) -> Option<usize>
        ensures kept { KeepsLive ticks.now tick self.old self.new }
        ensures first { MatchOption result (NoneLive ticks.now tick self.old) (IsFirstLive ticks.now tick self.old) }
    {
        sort(&mut self.keys, self.is_sorted);
        self.is_sorted = true;
        drop_stale(&mut self.keys, ticks, tick);
        self.keys.last().copied()
    }

    // Removes the key where it is the last, and returns whether it was. Does not allocate.
    pub(crate) fn take_last(&mut self, key: usize) -> bool
        ensures kept { KeepsOthers self.old self.new key }
        ensures had { IsTrue result → Contains self.old key }
    {
        if self.keys.last() != Some(&key) {
            return false;
        }
        self.keys.pop();
        true
    }
}

// Sorts the keys, the least last, if they are not sorted. Does not allocate.
fn sort(keys: &mut Vec<usize>, is_sorted: bool)
    requires { is_sorted ≡ true → Falls keys.old.items }
    ensures same { IsPermutation keys.old.items keys.new.items }
    ensures sorted { Falls keys.new.items }
{
    if is_sorted {
        return;
    }
    keys.sort_unstable_by(|a, b| b.cmp(a));
}

// Drops the keys at the end that do not have this tick, up to one that does.
fn drop_stale(keys: &mut Vec<usize>, ticks: &[Option<u64>], tick: u64)
    ensures sorted { Falls keys.old.items → Falls keys.new.items }
    ensures kept { KeepsLive ticks.now tick keys.old.items keys.new.items }
    ensures live { is_stale ticks.now tick (slice_get keys.new.items (length keys.new.items - 1)) ≡ false }
{
    'stale: while is_last_stale(keys, ticks, tick) {
        keys.pop();
    }
}

// Whether there is a last key and it does not have this tick.
fn is_last_stale(keys: &[usize], ticks: &[Option<u64>], tick: u64) -> bool
    ensures { result ≡ is_stale ticks.now tick (slice_get keys.now (length keys.now - 1)) }
{
    let Some(key) = keys.last().copied() else {
        return false;
    };
    match tick_of(ticks, key) {
        Some(own) => own != tick,
        None => true,
    }
}

// The tick of a key, if it has one.
fn tick_of(ticks: &[Option<u64>], key: usize) -> Option<u64>
    ensures { result ≡ tick_in ticks.now key }
{
    let Some(tick) = ticks.get(key) else {
        return None;
    };
    *tick
}
