ghost use Rattle.std.specs.Prelude.{◌≡◌, ◌≢◌, ◌↔◌, ◌<◌, [], ◌∷◌, ◌++◌, length, map, slice_get, IsTrue, IsNone, IfOk, OnOk, OnErr, IfNone, IfSome};
ghost use Rattle.std.specs.List.{remove};
ghost use Rattle.task_table.specs.Entries.{without_answer, requests_of, answers_placed, AllPlaced, NonePlaced};
ghost use Rattle.task_table.specs.Batch.{HandsOut};

use crate::entry::{Call, Entry, wake_for};
use crate::pick::Pick;
use crate::places::Places;
use crate::slots::{place_all, requests_in, take_at};
use clock::TaskId;
use input_lines::{Answer, Request};
use std::alloc::{AllocError, Global};
use std::marker::Model;
use std::mem;
use task_machine::Wake;

/// The tasks that are ready: the current batch, whose tasks have their turns in the order that a picker picks, and the
/// next one, to which tasks are added meanwhile.
///
/// The caller must ensure that the current batch is over before the next one becomes current, and that the requests of a
/// batch are answered before its tasks have their turns.
#[derive(Drop)]
pub struct ReadyBatch<'a> {
    alloc: Global,
    // The entries by their places. Each is taken out of its slot when its task has its turn.
    current: Vec<Option<Entry<'a>>>,
    next: Vec<Option<Entry<'a>>>,
    // The places of the current batch that are left, with space for those of the next one.
    places: Places,
}

impl<'a> Model for ReadyBatch<'a> {
    ghost use Rattle.task_table.specs.Batch.{Batches};

    ghost Value = { Batches };

    ghost use Rattle.task_table.specs.Slots.{values_in};
    ghost use Rattle.task_table.specs.Batch.{added_in, IsReady};

    ghost view = { λ b. record { current = values_in b.current.items; next = added_in b.next.items } };

    ghost invariant = { λ b. IsReady b.current.items b.next.items b.places };
}

impl<'a> ReadyBatch<'a> {
    /// Returns two empty batches. Takes no memory.
    pub fn new(alloc: Global) -> ReadyBatch<'a>
        ensures current { result.current ≡ [] }
        ensures next { result.next ≡ [] }
    {
        ReadyBatch {
            alloc,
            current: Vec::new(alloc),
            next: Vec::new(alloc),
            places: Places::new(alloc),
        }
    }

    /// Adds a task to the next batch, with the reason why it is ready. The only error is that memory runs out, and
    /// then nothing has changed.
    pub fn add(&mut self, task: TaskId, call: Call<'a>) -> Result<(), AllocError>
        ensures added { OnOk result (self.new.next ≡ self.old.next ++ (task, call.entry) ∷ []) }
        ensures current { self.new.current ≡ self.old.current }
        ensures err { OnErr result (self.new ≡ self.old) }
    {
        self.places.make_room(self.next.len())?;
        self.next.push(Some(Entry {
            task,
            call,
            answer: None,
        }))?;
        Ok(())
    }

    /// Makes the next batch the current one, with no answers placed. The new next batch is empty. The caller must ensure
    /// that the current batch is over. Takes no memory.
    pub fn turn_over(&mut self)
        requires { self.old.current ≡ [] }
        ensures current { self.new.current ≡ map without_answer self.old.next }
        ensures unplaced { NonePlaced self.new.current }
        ensures next { self.new.next ≡ [] }
    {
        self.current.clear();
        mem::swap(&mut self.current, &mut self.next);
        self.places.restart(self.current.len());
    }

    /// Returns whether the current batch is over: no task of it is left.
    pub fn is_empty(&self) -> bool
        ensures { IsTrue result ↔ (self.now.current ≡ []) }
    {
        self.count_left() == 0
    }

    /// Returns whether a task was added to the next batch.
    pub fn has_next(&self) -> bool
        ensures { IsTrue result ↔ (self.now.next ≢ []) }
    {
        !self.next.is_empty()
    }

    /// Returns the requests of the current batch, in the order of its tasks. The only error is that memory runs out.
    pub fn requests(&self) -> Result<Vec<Request<'a>>, AllocError>
        ensures { IfOk result (λ requests. requests.items ≡ requests_of self.now.current) }
    {
        requests_in(self.alloc, self.current.as_slice())
    }

    /// Places the answers to the requests of the current batch, each for the task that made its request. The caller must
    /// ensure that there are as many answers as requests, in the same order, and that none was placed before for this
    /// batch. Takes no memory.
    pub fn place(&mut self, answers: Vec<Answer<'a>>)
        requires as_many { length answers.items ≡ length (requests_of self.old.current) }
        requires unplaced { NonePlaced self.old.current }
        ensures placed { self.new.current ≡ answers_placed self.old.current answers.entry.items }
        ensures all { AllPlaced self.new.current }
        ensures next { self.new.next ≡ self.old.next }
    {
        place_all(self.current.as_mut_slice(), answers);
    }

    /// Asks the picker for one of the tasks that are left in the current batch, takes that task out, and returns its id
    /// and why it continues. Returns `None` exactly if no task is left, and then does not ask the picker. The caller must
    /// ensure that answers are placed for all requests. Takes no memory.
    pub fn next<P: Pick>(&mut self, picker: &mut P) -> Option<(TaskId, Wake<'a>)>
        requires { AllPlaced self.old.current }
        ensures none { IsNone result ↔ (self.old.current ≡ []) }
        ensures idle { IfNone result ((self.new ≡ self.old) × (picker.new ≡ picker.old)) }
        ensures hands_out { IfSome result (λ r. HandsOut P.picks self.old self.new picker.old picker.new r.0 r.1) }
        ensures placed { AllPlaced self.new.current }
    {
        let left = self.count_left();
        if left == 0 {
            return None;
        }
        let entry = self.take(picker.pick(left));
        Some((entry.task, wake_for(entry.call, entry.answer)))
    }

    // How many tasks of the current batch are left.
    fn count_left(&self) -> usize
        ensures { result ≡ length self.now.current }
    {
        self.places.len()
    }

    // Takes out the k-th entry of those left of the current batch.
    fn take(&mut self, k: usize) -> Entry<'a>
        requires { k < length self.old.current }
        ensures entry { slice_get self.old.current k ≡ Some result }
        ensures rest { self.new.current ≡ remove self.old.current k }
        ensures next { self.new.next ≡ self.old.next }
    {
        let place = self.places.take(k);
        take_at(self.current.as_mut_slice(), place)
    }
}
