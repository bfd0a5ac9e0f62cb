//! The places of a batch that are left, in order.
ghost use Rattle.std.specs.Prelude.{◌≡◌, true, false, ◌+◌, ◌-◌, ◌≤◌, ◌<◌, ◌^◌, [], length, OnOk, slice_index_or};
ghost use Rattle.std.specs.List.{remove};
ghost use Rattle.task_table.specs.Halves.{numbers};

use crate::halves::{draw_front, fill_front, shape_for};
use std::alloc::{AllocError, Global};
use std::marker::Model;

// The places that are left. Any of them may be taken, by the number of those left before it. The first and the last
// take constant time. When another one is taken they are counted by halves, and from then on each takes logarithmic
// time in their number.
#[derive(Drop)]
pub(crate) struct Places {
    first: usize,
    left: usize,
    counted: bool,
    // How deep the halves are, and how many counts there are then.
    depth: usize,
    span: usize,
    // How many are left in the first half of each half, followed by unused space.
    counts: Vec<usize>,
}

impl Model for Places {
    ghost use Rattle.task_table.specs.Places.{PlacesLeft};

    ghost Value = { PlacesLeft };

    ghost use Rattle.std.specs.Prelude.{length};
    ghost use Rattle.task_table.specs.Places.{places_left, IsCounted};

    ghost view = { λ p. record {
      left = places_left p.counted p.depth p.span p.first p.counts.items p.left;
      counted = p.counted;
      room = length p.counts.items;
    } };

    ghost invariant = { λ p. IsCounted p.counted p.depth p.span p.first p.counts.items p.left };
}

impl Places {
    // No place, and no space. Takes no memory.
    pub(crate) fn new(alloc: Global) -> Places
        ensures left { result.left ≡ [] }
        ensures room { result.room ≡ 0 }
    {
        Places {
            first: 0,
            left: 0,
            counted: false,
            depth: 0,
            span: 0,
            counts: Vec::new(alloc),
        }
    }

    // How many are left.
    pub(crate) fn len(&self) -> usize
        ensures { result ≡ length self.now.left }
    {
        self.left
    }

    // Allocates space for one place more than `count`, for which there is space.
    pub(crate) fn make_room(&mut self, count: usize) -> Result<(), AllocError>
        requires { count + count ≤ self.old.room }
        ensures room { OnOk result (count + 1 + (count + 1) ≤ self.new.room) }
        ensures left { self.new.left ≡ self.old.left }
        ensures kept { self.old.room ≤ self.new.room }
    {
        let had = self.counts.len();
        let room = count + 1 + (count + 1);
        if had < room {
            self.counts.resize(room, 0)?;
        }
        Ok(())
    }

    // Makes the first `count` places those that are left. Takes no memory.
    pub(crate) fn restart(&mut self, count: usize)
        requires { count + count ≤ self.old.room }
        ensures left { self.new.left ≡ numbers 0 count }
        ensures room { self.new.room ≡ self.old.room }
    {
        self.first = 0;
        self.left = count;
        self.counted = false;
    }

    // Takes the k-th of those left. Takes no memory.
    pub(crate) fn take(&mut self, k: usize) -> usize
        requires { k < length self.old.left }
        ensures place { result ≡ slice_index_or self.old.left k 0 }
        ensures rest { self.new.left ≡ remove self.old.left k }
        ensures room { self.new.room ≡ self.old.room }
    {
        if !self.counted {
            if k == 0 {
                return self.take_first();
            }
            if k == self.len() - 1 {
                return self.take_last();
            }
            self.count();
        }
        self.draw(k)
    }

    // Takes the first of those left.
    fn take_first(&mut self) -> usize
        requires uncounted { self.old.counted ≡ false }
        requires some { 0 < length self.old.left }
        ensures place { result ≡ slice_index_or self.old.left 0 0 }
        ensures rest { self.new.left ≡ remove self.old.left 0 }
        ensures room { self.new.room ≡ self.old.room }
    {
        let place = self.first;
        self.first += 1;
        self.left -= 1;
        place
    }

    // Takes the last of those left.
    fn take_last(&mut self) -> usize
        requires uncounted { self.old.counted ≡ false }
        requires some { 0 < length self.old.left }
        ensures place { result ≡ slice_index_or self.old.left (length self.old.left - 1) 0 }
        ensures rest { self.new.left ≡ remove self.old.left (length self.old.left - 1) }
        ensures room { self.new.room ≡ self.old.room }
    {
        self.left -= 1;
        self.first + self.left
    }

    // Counts those left by halves.
    fn count(&mut self)
        requires { self.old.counted ≡ false }
        ensures counted { self.new.counted ≡ true }
        ensures left { self.new.left ≡ self.old.left }
        ensures room { self.new.room ≡ self.old.room }
    {
        let (depth, span) = shape_for(self.left);
        fill_front(self.counts.as_mut_slice(), span, depth, self.left);
        self.depth = depth;
        self.span = span;
        self.counted = true;
    }

    // Takes the k-th of those left, which are counted.
    fn draw(&mut self, k: usize) -> usize
        requires counted { self.old.counted ≡ true }
        requires some { k < length self.old.left }
        ensures place { result ≡ slice_index_or self.old.left k 0 }
        ensures rest { self.new.left ≡ remove self.old.left k }
        ensures room { self.new.room ≡ self.old.room }
    {
        let counts = self.counts.as_mut_slice();
        let place = draw_front(counts, self.span, self.depth, self.first, self.left, k);
        self.left -= 1;
        place
    }
}
