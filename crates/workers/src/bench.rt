ghost use Rattle.std.specs.Prelude.{◌≡◌, ◌<◌, ◌≤◌, length, take, drop, slice_set};
ghost use Rattle.workers.specs.Slots.{IsComputed, AreComputed};

use crate::slot::{Content, Slot};
use input_lines::{Request, answer};
use std::alloc::Global;

/// Requests, and a borrowed row of slots for their answers. Slot `i` is for request `i`.
#[derive(Drop)]
pub struct Bench<'b, 'a> {
    requests: &'b [Request<'a>],
    row: &'b mut [Slot<'a>],
    ghost paired: { length requests.now ≡ length row.now },
}

impl<'b, 'a> Bench<'b, 'a> {
    ghost use Rattle.workers.specs.Bench.{requests_of, row_of};

    /// Pairs request `i` with slot `i`. The caller must ensure that there are as many slots as requests.
    pub fn new(requests: &'b [Request<'a>], row: &'b mut [Slot<'a>]) -> Bench<'b, 'a>
        requires { length requests.now ≡ length row.old }
        ensures requests { requests_of result ≡ requests.now }
        ensures row { row_of result ≡ row.old }
        ensures same_row { result.row.ghost_name ≡ row.entry.ghost_name }
    {
        Bench { requests, row }
    }

    /// Replaces slot `i`. The caller must ensure that `i` is less than the number of slots.
    pub fn put(&mut self, i: usize, slot: Slot<'a>)
        requires { i < length (row_of self.old) }
        ensures requests { requests_of self.new ≡ requests_of self.old }
        ensures row { row_of self.new ≡ slice_set (row_of self.old) i slot.entry }
        ensures same_row { self.new.row.ghost_name ≡ self.old.row.ghost_name }
    {
        self.row[i] = slot;
    }

    /// Returns two benches: the first `n` requests with their slots, and the others with theirs. The caller must ensure that
    /// there are at least `n` requests.
    pub fn cut(self, n: usize) -> (Bench<'b, 'a>, Bench<'b, 'a>)
        requires { n ≤ length (row_of self) }
        ensures first { (requests_of result.0 ≡ take n (requests_of self.entry)) × (row_of result.0 ≡ take n (row_of self.entry)) }
        ensures rest { (requests_of result.1 ≡ drop n (requests_of self.entry)) × (row_of result.1 ≡ drop n (row_of self.entry)) }
    {
        let Bench { requests, row } = self;
        let (first_requests, other_requests) = requests.split_at(n);
        let (first_row, other_row) = row.split_at_mut(n);
        (
            Bench {
                requests: first_requests,
                row: first_row,
            },
            Bench {
                requests: other_requests,
                row: other_row,
            },
        )
    }

    /// Computes each request in turn. The slot of each request then holds its answer, or `NoMemory` if memory ran out for
    /// that request.
    pub fn fill(self, alloc: Global)
        ensures count { length self.exit.1.0.now ≡ length (requests_of self.entry) }
        ensures computed { AreComputed (requests_of self.entry) self.exit.1.0.now }
    {
        let Bench { requests, row } = self;
        compute(alloc, requests, row);
    }
}

// Computes requests in turn, and stores each result in its slot.
fn compute<'a>(alloc: Global, requests: &[Request<'a>], row: &mut [Slot<'a>])
    requires { length row.old ≡ length requests.now }
    ensures count { length row.new ≡ length row.old }
    ensures computed { AreComputed requests.now row.new }
{
    for i in 0..row.len() {
        row[i] = compute_one(alloc, &requests[i]);
    }
}

// Computes a request, and returns its slot.
fn compute_one<'a>(alloc: Global, request: &Request<'a>) -> Slot<'a>
    ensures { IsComputed request.now result }
{
    let content = match answer(alloc, &request.kernel, request.part) {
        Ok(answer) => Content::Done(answer),
        Err(_) => Content::NoMemory,
    };
    Slot { content }
}
