//! Slots of entries, of which some are empty.
ghost use Rattle.std.specs.Prelude.{◌≡◌, ◌<◌, Some, None, IfOk, length, slice_index_or, slice_set, IsSome};
ghost use Rattle.std.specs.Vec.Iter.{into_iter_items, into_iter_len};
ghost use Rattle.task_table.specs.Slots.{values_in};
ghost use Rattle.task_table.specs.Entries.{requests_of};
ghost use Rattle.task_table.specs.Placing.{request_at, slot_placed, answers_after_slot, slots_placed};

use crate::entry::{Entry, request_in};
use input_lines::{Answer, Request};
use std::alloc::{AllocError, Global};
use std::vec::IntoIter;

// Empties the slot at a place.
pub(crate) fn take_at<T>(slots: &mut [Option<T>], place: usize) -> T
    requires within { place < length slots.old }
    requires some { IsSome (slice_index_or slots.old place None) }
    ensures value { slice_index_or slots.old place None ≡ Some result }
    ensures emptied { slots.new ≡ slice_set slots.old place None }
{
    match slots[place].take() {
        Some(value) => value,
        None => unreachable!(),
    }
}

// The request of a slot whose entry asks.
fn request_of<'a>(slot: &Option<Entry<'a>>) -> Option<Request<'a>>
    ensures { result ≡ request_at slot.now }
{
    match slot {
        Some(entry) => request_in(entry.call),
        None => None,
    }
}

// The requests that entries make, in order.
pub(crate) fn requests_in<'a>(
    alloc: Global,
    slots: &[Option<Entry<'a>>],
) -> Result<Vec<Request<'a>>, AllocError>
    ensures { IfOk result (λ requests. requests.items ≡ requests_of (values_in slots.now)) }
{
    let mut requests = Vec::new(alloc);
    'slots: for slot in slots {
        if let Some(request) = request_of(slot) {
            requests.push(request)?;
        }
    }
    Ok(requests)
}

// Places the next answer in a slot whose entry asks.
fn place_at<'a>(slot: &mut Option<Entry<'a>>, answers: &mut IntoIter<Answer<'a>>)
    requires { into_iter_len answers.old ≡ length (into_iter_items answers.old) }
    ensures slot { slot.new ≡ slot_placed slot.old (into_iter_items answers.old) }
    ensures left { into_iter_items answers.new ≡ answers_after_slot slot.old (into_iter_items answers.old) }
    ensures len { into_iter_len answers.new ≡ length (into_iter_items answers.new) }
{
    let Some(entry) = slot else {
        return;
    };
    if request_in(entry.call).is_some() {
        entry.answer = answers.next();
    }
}

// Places answers in the slots whose entries ask, in order.
pub(crate) fn place_all<'a>(slots: &mut [Option<Entry<'a>>], answers: Vec<Answer<'a>>)
    ensures { slots.new ≡ slots_placed slots.old answers.entry.items }
{
    let mut answers = answers.into_iter();
    'slots: for slot in slots.iter_mut() {
        place_at(slot, &mut answers);
    }
}
