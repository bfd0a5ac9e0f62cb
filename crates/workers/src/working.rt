ghost use Rattle.std.specs.Prelude.{◌≡◌, ◌≤◌, ◌<◌, List, [], ◌∷◌, ◌++◌, true, false, length, vec_len, map, replicate, slice_set, All, IfOk};
ghost use Rattle.workers.specs.declared.limits.TheConstants.{MAX_REQUESTS};
ghost use Rattle.workers.specs.Claims.{IsPassOf, requests_of, drawn_by, is_spent};
ghost use Rattle.workers.specs.Slots.{AreAnswers, AreComputed, IsFilled, empty_slot, slot_of};
ghost use Rattle.workers.specs.WorkerStates.{IsFresh, IsFinished, AreGathered, HaveAnswers};

use crate::gate::Gate;
use crate::slot::{Content, Slot};
use crate::worker_state::{Numbered, WorkerState};
use crate::{Claims, Pass};
use input_lines::{Answer, Request};
use std::alloc::{AllocError, Global};
use std::thread;
use std::thread::Threads;

/// Answers each request, and returns the answers in the order of the requests. Uses at most `workers` threads, and no more
/// than there are requests. A single worker runs in the calling thread. Each worker draws the next request until none is
/// left. The worker that computes a request calls the gate before and after it.
///
/// If a thread cannot be started, another one does its work. The caller must ensure that there are from 1 to 64 workers and
/// at most `MAX_REQUESTS` requests.
///
/// Returns `AllocError` if memory ran out for a request or for this call itself. All threads that were started are joined
/// before it returns.
pub fn work<'a, R: Threads + Sync, G: Gate + Sync>(
    rt: &R,
    alloc: Global,
    workers: usize,
    requests: &[Request<'a>],
    gate: &G,
) -> Result<Vec<Answer<'a>>, AllocError>
    requires some_workers { 1 ≤ workers }
    requires few_workers { workers ≤ 64 }
    requires few_requests { length requests.now ≤ MAX_REQUESTS }
    ensures { IfOk result (λ answers. AreAnswers requests.now answers.items) }
{
    if requests.is_empty() {
        return Ok(Vec::new(alloc));
    }
    let mut row = empty_row(alloc, requests.len())?;
    let count = workers.min(requests.len());
    let answered = draw_all(rt, alloc, count, requests, gate)?;
    place(requests, answered, row.as_mut_slice());
    answers(alloc, row)
}

// Returns the answers to all requests, computed by this many workers, grouped by worker.
fn draw_all<'a, R: Threads + Sync, G: Gate + Sync>(
    rt: &R,
    alloc: Global,
    workers: usize,
    requests: &[Request<'a>],
    gate: &G,
) -> Result<Vec<Numbered<'a>>, AllocError>
    requires some_workers { 1 ≤ workers }
    requires few_workers { workers ≤ 64 }
    requires few_requests { length requests.now ≤ MAX_REQUESTS }
    ensures { IfOk result (λ answered. HaveAnswers requests.now answered.items) }
{
    let (claims, passes) = Claims::new(alloc, requests.len(), workers)?;
    let worker_states = worker_states_of(alloc, &claims, passes)?;
    let worker_states = run_all(rt, alloc, requests, &claims, gate, worker_states);
    let gathered = gather(alloc, requests, &claims, worker_states)?;
    let Gathered {
        passes,
        answered,
        refused,
    } = gathered;
    claims.close(passes);
    if refused {
        return Err(AllocError);
    }
    Ok(answered)
}

// Creates a worker for each ticket.
fn worker_states_of<'a>(
    alloc: Global,
    claims: &Claims,
    passes: Vec<Pass>,
) -> Result<Vec<WorkerState<'a>>, AllocError>
    requires { All (λ pass. IsPassOf claims.now pass × (drawn_by pass ≡ []) × (is_spent pass ≡ false)) passes.items }
    ensures count { IfOk result (λ worker_states. vec_len worker_states ≡ vec_len passes) }
    ensures fresh { IfOk result (λ worker_states. All (IsFresh claims.now) worker_states.items) }
{
    let mut worker_states = Vec::with_capacity(alloc, passes.len())?;
    for pass in passes {
        worker_states.push(WorkerState::new(alloc, pass))?;
    }
    Ok(worker_states)
}

// Runs the workers until they have drawn all requests, and returns them.
fn run_all<'a, R: Threads + Sync, G: Gate + Sync>(
    rt: &R,
    alloc: Global,
    requests: &[Request<'a>],
    claims: &Claims,
    gate: &G,
    mut worker_states: Vec<WorkerState<'a>>,
) -> Vec<WorkerState<'a>>
    requires count { requests_of claims.now ≡ length requests.now }
    requires some { 0 < vec_len worker_states }
    requires fresh { All (IsFresh claims.now) worker_states.items }
    ensures count { vec_len result ≡ vec_len worker_states.entry }
    ensures finished { All (IsFinished requests.entry.now claims.now) result.items }
{
    run_each(
        rt,
        alloc,
        requests,
        claims,
        gate,
        worker_states.as_mut_slice(),
    );
    worker_states
}

// Runs each worker, in a thread of its own if there are several.
fn run_each<'a, R: Threads + Sync, G: Gate + Sync>(
    rt: &R,
    alloc: Global,
    requests: &[Request<'a>],
    claims: &Claims,
    gate: &G,
    worker_states: &mut [WorkerState<'a>],
)
    requires count { requests_of claims.now ≡ length requests.now }
    requires some { 0 < length worker_states.old }
    requires fresh { All (IsFresh claims.now) worker_states.old }
    ensures count { length worker_states.new ≡ length worker_states.old }
    ensures finished { All (IsFinished requests.entry.now claims.now) worker_states.new }
{
    let count = worker_states.len();
    if count == 1 {
        worker_states[0].run(alloc, requests, claims, gate);
        return;
    }
    thread::for_each_mut(
        rt,
        worker_states,
        count,
        &|_: usize, worker_state: &mut WorkerState|
            requires { (requests_of claims.now ≡ length requests.now) × IsFresh claims.now worker_state.old }
            ensures { IsFinished requests.entry.now claims.entry.now worker_state.new }
        { worker_state.run(alloc, requests, claims, gate) },
    );
}

// The tickets and answers of all workers, and whether memory ran out for at least one of them.
#[derive(Drop)]
struct Gathered<'a> {
    passes: Vec<Pass>,
    answered: Vec<Numbered<'a>>,
    refused: bool,
}

impl<'a> Gathered<'a> {
    // Adds the ticket and the answers of one worker.
    fn take(&mut self, worker_state: WorkerState<'a>) -> Result<(), AllocError>
        ensures passes { IfOk result (λ _. self.new.passes.items ≡ self.old.passes.items ++ worker_state.entry.pass ∷ []) }
        ensures answered { IfOk result (λ _. self.new.answered.items ≡ self.old.answered.items ++ worker_state.entry.answered.items) }
        ensures refused { IfOk result (λ _. self.new.refused ≡ false → (self.old.refused ≡ false) × (worker_state.entry.refused ≡ false)) }
    {
        let WorkerState {
            pass,
            mut answered,
            refused,
        } = worker_state;
        self.passes.push(pass)?;
        self.answered.append(&mut answered)?;
        self.refused = self.refused || refused;
        Ok(())
    }
}

// Collects the tickets and the answers of the workers.
fn gather<'a>(
    alloc: Global,
    requests: &[Request<'a>],
    claims: &Claims,
    worker_states: Vec<WorkerState<'a>>,
) -> Result<Gathered<'a>, AllocError>
    requires { All (IsFinished requests.now claims.now) worker_states.items }
    ensures count { IfOk result (λ gathered. vec_len gathered.passes ≡ vec_len worker_states.entry) }
    ensures passes { IfOk result (λ gathered. All (λ pass. IsPassOf claims.now pass × (is_spent pass ≡ true)) gathered.passes.items) }
    ensures answered { IfOk result (λ gathered. gathered.refused ≡ false →
        AreGathered requests.entry.now gathered.passes.items gathered.answered.items) }
{
    let mut gathered = Gathered {
        passes: Vec::with_capacity(alloc, worker_states.len())?,
        answered: Vec::new(alloc),
        refused: false,
    };
    for worker_state in worker_states {
        gathered.take(worker_state)?;
    }
    Ok(gathered)
}

// Puts each answer into the slot of its request.
fn place<'a>(requests: &[Request<'a>], answered: Vec<Numbered<'a>>, row: &mut [Slot<'a>])
    requires paired { length requests.now ≡ length row.old }
    requires answers { HaveAnswers requests.now answered.items }
    ensures count { length row.new ≡ length row.old }
    ensures computed { AreComputed requests.entry.now row.new }
{
    for numbered in answered {
        let Numbered { number, answer } = numbered;
        put(row, number, answer);
    }
}

// Puts one answer into a slot.
fn put<'a>(row: &mut [Slot<'a>], number: usize, answer: Answer<'a>)
    requires { number < length row.old }
    ensures { row.new ≡ slice_set row.old number (slot_of answer.entry) }
{
    row[number] = Slot {
        content: Content::Done(answer),
    };
}

// Returns this many empty slots.
fn empty_row<'a>(alloc: Global, count: usize) -> Result<Vec<Slot<'a>>, AllocError>
    ensures { IfOk result (λ row. row.items ≡ replicate count empty_slot) }
{
    let mut row = Vec::with_capacity(alloc, count)?;
    for _ in 0..count {
        row.push(Slot {
            content: Content::Empty,
        })?;
    }
    Ok(row)
}

// Returns the answers in a row of slots of which none is empty, or `AllocError` if memory ran out for a slot.
fn answers<'a>(alloc: Global, row: Vec<Slot<'a>>) -> Result<Vec<Answer<'a>>, AllocError>
    requires { All IsFilled row.items }
    ensures { IfOk result (λ answers. map slot_of answers.items ≡ row.entry.items) }
{
    let mut answers = Vec::with_capacity(alloc, row.len())?;
    for slot in row {
        match slot.content {
            Content::Done(answer) => answers.push(answer)?,
            Content::NoMemory => return Err(AllocError),
            Content::Empty => unreachable!(),
        }
    }
    Ok(answers)
}
