ghost use Rattle.std.specs.Prelude.{◌≡◌, ◌≤◌, ◌<◌, Some, length, vec_len, map, slice_index_or, IfOk};
ghost use Rattle.std.specs.Thread.{IsSync};
ghost use Rattle.workers.specs.Answers.{AreAnswers, AreFilled, IsFilled};

use crate::Gate;
use crate::work_items::Work;
use std::alloc::{AllocError, Global};
use std::thread;
use std::thread::Threads;

/// Returns the answers for these items, in their order, found by at most `workers` threads. The thread that works on an item
/// calls the gate before and after it, with the index of the item. The caller must ensure that there is at least one worker and
/// that the work's own requirement (`Work::may`) holds.
///
/// Returns `AllocError` if memory runs out. If that happens at one item, the work on the other items is still done.
pub fn answers_for<R: Threads + Sync, W: Work + Sync, G: Gate + Sync>(
    rt: &R,
    alloc: Global,
    work: &W,
    items: &[W::Item],
    workers: usize,
    gate: &G,
) -> Result<Vec<W::Answer>, AllocError>
    requires may { W.Work.may work.now }
    requires some_workers { 1 ≤ workers }
    ensures { IfOk result (λ all. AreAnswers (W.Work.answers work.now) items.now all.items) }
{
    let mut slots = empty_slots(alloc, items.len())?;
    fill_all(rt, alloc, work, items, slots.as_mut_slice(), workers, gate);
    answers_in(alloc, slots)
}

// Returns this many empty slots.
fn empty_slots<A: Drop>(alloc: Global, count: usize) -> Result<Vec<Option<A>>, AllocError>
    ensures { IfOk result (λ slots. vec_len slots ≡ count) }
{
    let mut slots = Vec::with_capacity(alloc, count)?;
    for _ in 0..count {
        slots.push(None)?;
    }
    Ok(slots)
}

// Fills the slot of each item, with at most this many threads.
fn fill_all<R: Threads + Sync, W: Work + Sync, G: Gate + Sync>(
    rt: &R,
    alloc: Global,
    work: &W,
    items: &[W::Item],
    slots: &mut [Option<W::Answer>],
    workers: usize,
    gate: &G,
)
    requires may { W.Work.may work.now }
    requires some_workers { 1 ≤ workers }
    requires paired { length slots.old ≡ length items.now }
    ensures count { length slots.new ≡ length slots.old }
    ensures filled { AreFilled (W.Work.answers work.now) items.now slots.new }
{
    thread::for_each_mut(
        rt,
        slots,
        workers,
        &|place: usize, slot: &mut Option<W::Answer>|
            requires { IsSync R.row × (W.Work.may work.now) × (place < length items.now) }
            ensures { (d : _) → IsFilled (W.Work.answers work.entry.now) (slice_index_or items.entry.now place d) slot.new }
        { *slot = answer_item(rt, alloc, work, &items[place], gate, place) },
    );
}

// Returns the answer for an item, or `None` if memory ran out for it. Calls the gate before and after, with the item's index.
fn answer_item<R: Threads + Sync, W: Work, G: Gate>(
    rt: &R,
    alloc: Global,
    work: &W,
    item: &W::Item,
    gate: &G,
    place: usize,
) -> Option<W::Answer>
    requires { W.Work.may work.now }
    ensures { IsFilled (W.Work.answers work.now) item.now result }
{
    gate.before(place);
    let answer = work.answer(rt, alloc, item).ok();
    gate.after(place);
    answer
}

// Returns the answers in the slots, or `AllocError` if a slot is empty.
#[tactic(auto, using(crate::proofs::Filled::taken_one_more))]
fn answers_in<A: Drop>(alloc: Global, slots: Vec<Option<A>>) -> Result<Vec<A>, AllocError>
    ensures { IfOk result (λ answers. map Some answers.items ≡ slots.items) }
{
    let mut answers = Vec::with_capacity(alloc, slots.len())?;
    for slot in slots {
        let Some(answer) = slot else {
            return Err(AllocError);
        };
        answers.push(answer)?;
    }
    Ok(answers)
}
