//! `task_table`: the turns of a batch come as the picker picks, with the answers to their requests, and ids are reused.

ghost use Rattle.std.specs.Prelude.{◌≡◌, ◌<◌, [], IfOk, OnOk, length};
ghost use Rattle.task_table.specs.Entries.{AllPlaced, NonePlaced};

use crate::fixtures::{push_bytes, push_number, same};
use clock::TaskId;
use input_lines::{Answer, Kernel, Part, Request};
use std::alloc::{AllocError, Global};
use std::test::Fail;
use task_machine::Wake;
use task_table::{Call, Forward, Live, Pick, ReadyBatch, Reverse, Turn};

// A request that is identified by its number.
fn head_request(number: u64) -> Request<'static> {
    Request {
        kernel: Kernel::Head(number),
        part: Part::whole(b""),
    }
}

// The numbers of requests, each with a space after it.
fn numbers(alloc: Global, requests: &[Request<'_>]) -> Result<Vec<u8>, AllocError> {
    let mut text = Vec::new(alloc);
    for request in requests {
        match request.kernel {
            Kernel::Head(number) => push_number(&mut text, number)?,
            _ => push_bytes(&mut text, b"?")?,
        }
        push_bytes(&mut text, b" ")?;
    }
    Ok(text)
}

// The answer that is identified by the number of the request.
fn answer_to(kernel: Kernel<'_>) -> Answer<'static> {
    match kernel {
        Kernel::Head(number) => Answer::Count(number),
        _ => Answer::Missing,
    }
}

// Answers that are identified by the numbers of their requests.
fn answers_to(alloc: Global, requests: &[Request<'_>]) -> Result<Vec<Answer<'static>>, AllocError>
    ensures { IfOk result (λ answers. length answers.items ≡ length requests.now) }
{
    let mut answers = Vec::new(alloc);
    'requests: for request in requests {
        answers.push(answer_to(request.kernel))?;
    }
    Ok(answers)
}

// Answers every request of the current batch.
fn answer_all(alloc: Global, batch: &mut ReadyBatch<'static>) -> Result<(), AllocError>
    requires { NonePlaced batch.old.current }
    ensures { OnOk result (AllPlaced batch.new.current) }
{
    let requests = batch.requests()?;
    let answers = answers_to(alloc, requests.as_slice())?;
    batch.place(answers);
    Ok(())
}

// Appends an answer, by its number.
fn push_answer(text: &mut Vec<u8>, answer: &Answer<'_>) -> Result<(), AllocError> {
    match answer {
        Answer::Count(number) => push_number(text, *number),
        _ => push_bytes(text, b"?"),
    }
}

// Appends why a task continues.
fn push_wake(text: &mut Vec<u8>, wake: &Wake<'_>) -> Result<(), AllocError> {
    match wake {
        Wake::Begin => push_bytes(text, b"begin"),
        Wake::Due => push_bytes(text, b"due"),
        Wake::Seen => push_bytes(text, b"seen"),
        Wake::Answer(answer) => push_answer(text, answer),
        Wake::Settled => push_bytes(text, b"settled"),
        Wake::Granted(_) => push_bytes(text, b"granted"),
    }
}

// Appends a task's key and why it continues, as `2:20 `.
fn push_turn(text: &mut Vec<u8>, turn: &(TaskId, Wake<'_>)) -> Result<(), AllocError> {
    push_number(text, turn.0.key() as u64)?;
    push_bytes(text, b":")?;
    push_wake(text, &turn.1)?;
    push_bytes(text, b" ")
}

// One of the three orders of turns.
#[derive(Clone, Copy, Drop)]
enum Order {
    Forward,
    Reverse,
    InTurn,
}

// A picker that picks as the one of its order does. It is one type, so what is generic in pickers is proved here only for it.
#[derive(Drop)]
struct Chosen {
    order: Order,
    turn: Turn,
}

// The picker of an order.
fn picker_of(order: Order) -> Chosen {
    Chosen {
        order,
        turn: Turn { calls: 0 },
    }
}

impl Pick for Chosen {
    fn pick(&mut self, left: usize) -> usize
        requires { 0 < left }
        ensures { result < left }
    {
        match self.order {
            Order::Forward => Forward.pick(left),
            Order::Reverse => Reverse.pick(left),
            Order::InTurn => self.turn.pick(left),
        }
    }
}

// The turns of the current batch, which is over then.
fn turns(
    alloc: Global,
    batch: &mut ReadyBatch<'static>,
    picker: &mut Chosen,
) -> Result<Vec<u8>, AllocError>
    requires { AllPlaced batch.old.current }
    ensures { OnOk result (batch.new.current ≡ []) }
{
    let mut text = Vec::new(alloc);
    'turns: while let Some(turn) = batch.next(picker) {
        push_turn(&mut text, &turn)?;
    }
    Ok(text)
}

// A batch of these calls, which is the current one and has no answer yet.
fn batch_of_calls(
    alloc: Global,
    calls: &[(usize, Call<'static>)],
) -> Result<ReadyBatch<'static>, AllocError>
    ensures { IfOk result (λ batch. NonePlaced batch.current) }
{
    let mut batch = ReadyBatch::new(alloc);
    'calls: for (key, call) in calls {
        batch.add(TaskId::of(*key), *call)?;
    }
    batch.turn_over();
    Ok(batch)
}

// The turns of four tasks, of which the second and the fourth make requests.
fn four_turns(alloc: Global, picker: &mut Chosen) -> Result<Vec<u8>, AllocError> {
    let calls = [
        (1, Call::Begin),
        (2, Call::Ask(head_request(20))),
        (3, Call::Settled),
        (4, Call::Ask(head_request(40))),
    ];
    let mut batch = batch_of_calls(alloc, &calls)?;
    answer_all(alloc, &mut batch)?;
    turns(alloc, &mut batch, picker)
}

// Whether four tasks have these turns in an order, and the picker in turn was called this often.
fn have_turns(alloc: Global, order: Order, wanted: &[u8], calls: u64) -> Result<bool, AllocError> {
    let mut picker = picker_of(order);
    let found = four_turns(alloc, &mut picker)?;
    Ok(found.as_slice() == wanted && picker.turn.calls == calls)
}

#[test]
fn turns_come_as_the_picker_picks(rt: HostRuntime) -> Result<(), Fail> {
    let forward = b"1:begin 2:20 3:settled 4:40 ";
    assert!(rt; have_turns(rt.alloc(), Order::Forward, forward, 0)?);
    let reverse = b"4:40 3:settled 2:20 1:begin ";
    assert!(rt; have_turns(rt.alloc(), Order::Reverse, reverse, 0)?);
    let in_turn = b"1:begin 3:settled 2:20 4:40 ";
    assert!(rt; have_turns(rt.alloc(), Order::InTurn, in_turn, 4)?);
    Ok(())
}

// How many requests a batch makes.
fn count_of_requests(batch: &ReadyBatch<'static>) -> Result<usize, AllocError> {
    let requests = batch.requests()?;
    Ok(requests.len())
}

// The turns of three tasks that begin, and how many requests they make.
fn three_begin(alloc: Global, order: Order) -> Result<(Vec<u8>, usize), AllocError> {
    let calls = [(0, Call::Begin), (1, Call::Begin), (2, Call::Begin)];
    let mut batch = batch_of_calls(alloc, &calls)?;
    let requests = count_of_requests(&batch)?;
    answer_all(alloc, &mut batch)?;
    let text = turns(alloc, &mut batch, &mut picker_of(order))?;
    Ok((text, requests))
}

// Whether three tasks that begin make no request, and have these turns in an order.
fn begin_in_order(alloc: Global, order: Order, wanted: &[u8]) -> Result<bool, AllocError> {
    let (text, requests) = three_begin(alloc, order)?;
    Ok(requests == 0 && text.as_slice() == wanted)
}

#[test]
fn three_tasks_begin_as_the_picker_picks(rt: HostRuntime) -> Result<(), Fail> {
    let forward = b"0:begin 1:begin 2:begin ";
    assert!(rt; begin_in_order(rt.alloc(), Order::Forward, forward)?);
    let reverse = b"2:begin 1:begin 0:begin ";
    assert!(rt; begin_in_order(rt.alloc(), Order::Reverse, reverse)?);
    let in_turn = b"0:begin 2:begin 1:begin ";
    assert!(rt; begin_in_order(rt.alloc(), Order::InTurn, in_turn)?);
    Ok(())
}

// A batch of four tasks, of which two make requests, before it is the current one.
fn four_added(alloc: Global) -> Result<ReadyBatch<'static>, AllocError>
    ensures { IfOk result (λ batch. batch.current ≡ []) }
{
    let mut batch = ReadyBatch::new(alloc);
    batch.add(TaskId::of(1), Call::Due)?;
    batch.add(TaskId::of(2), Call::Ask(head_request(20)))?;
    batch.add(TaskId::of(3), Call::Seen)?;
    batch.add(TaskId::of(4), Call::Ask(head_request(40)))?;
    Ok(batch)
}

// The numbers of the requests of a batch.
fn numbers_in(alloc: Global, batch: &ReadyBatch<'static>) -> Result<Vec<u8>, AllocError> {
    let requests = batch.requests()?;
    numbers(alloc, requests.as_slice())
}

// The number of requests before that batch is the current one, and then their numbers.
fn request_numbers(alloc: Global) -> Result<(usize, Vec<u8>), AllocError> {
    let mut batch = four_added(alloc)?;
    let before = count_of_requests(&batch)?;
    batch.turn_over();
    let then = numbers_in(alloc, &batch)?;
    Ok((before, then))
}

#[test]
fn requests_come_in_the_order_of_their_tasks(rt: HostRuntime) -> Result<(), Fail> {
    let (before, then) = request_numbers(rt.alloc())?;
    assert!(rt; before == 0);
    same(then.as_slice(), b"20 40 ")
}

// The turns of a batch, while a task is added to the next one.
fn turns_before(alloc: Global, batch: &mut ReadyBatch<'static>) -> Result<Vec<u8>, AllocError>
    requires { NonePlaced batch.old.current }
    ensures { OnOk result (batch.new.current ≡ []) }
{
    answer_all(alloc, batch)?;
    batch.add(TaskId::of(2), Call::Seen)?;
    turns(alloc, batch, &mut picker_of(Order::Forward))
}

// Whether the batch is over, and not after the next one is the current one; and the turns of that one.
fn turns_after(
    alloc: Global,
    batch: &mut ReadyBatch<'static>,
) -> Result<(bool, bool, Vec<u8>), AllocError>
    requires { batch.old.current ≡ [] }
{
    let before = batch.is_empty();
    batch.turn_over();
    let then = batch.is_empty();
    answer_all(alloc, batch)?;
    let text = turns(alloc, batch, &mut picker_of(Order::Forward))?;
    Ok((before, then, text))
}

// Fails if the turns of two batches are others than these, or a batch is not over exactly when it has no turn left.
fn same_turns(first: &[u8], after: &(bool, bool, Vec<u8>)) -> Result<(), Fail> {
    let (before, then, second) = after;
    if !*before || *then {
        return Err("a batch is over once it has no turn left")?;
    }
    same(first, b"1:due ")?;
    same(second.as_slice(), b"2:seen ")
}

// Fails if what is added does not wait for the next batch.
fn waits(alloc: Global) -> Result<(), Fail> {
    let mut batch = batch_of_calls(alloc, &[(1, Call::Due)])?;
    let first = turns_before(alloc, &mut batch)?;
    let after = turns_after(alloc, &mut batch)?;
    same_turns(first.as_slice(), &after)
}

#[test]
fn what_is_added_waits_for_the_next_batch(rt: HostRuntime) -> Result<(), Fail> {
    waits(rt.alloc())
}

// A batch of the given number of tasks that begin.
fn batch_of_begins(alloc: Global, count: usize) -> Result<ReadyBatch<'static>, AllocError>
    ensures { IfOk result (λ batch. NonePlaced batch.current) }
{
    let mut batch = ReadyBatch::new(alloc);
    'keys: for key in 0..count {
        batch.add(TaskId::of(key), Call::Begin)?;
    }
    batch.turn_over();
    Ok(batch)
}

// A sum of the keys of tasks, which depends on the order of their turns.
fn order_of(batch: &mut ReadyBatch<'static>, picker: &mut Chosen) -> u64
    requires { AllPlaced batch.old.current }
{
    let mut sum: u64 = 0;
    'turns: while let Some(turn) = batch.next(picker) {
        sum = sum.wrapping_mul(31).wrapping_add(turn.0.key() as u64);
    }
    sum
}

// The sum for the given number of tasks, where the picker picks in turn.
fn order_in_turn(alloc: Global, count: usize) -> Result<u64, AllocError> {
    let mut batch = batch_of_begins(alloc, count)?;
    answer_all(alloc, &mut batch)?;
    Ok(order_of(&mut batch, &mut picker_of(Order::InTurn)))
}

#[test]
fn a_hundred_thousand_turns(rt: HostRuntime) -> Result<(), Fail> {
    let sum = order_in_turn(rt.alloc(), 100_000)?;
    assert!(rt; sum == 4830241336265021492);
    Ok(())
}

// Whether a value could be written under an id.
fn write(live: &mut Live<u64>, id: TaskId, value: u64) -> bool {
    match live.get_mut(id) {
        Some(place) => {
            *place = value;
            true
        }
        None => false,
    }
}

// Whether this value is under an id.
fn has(live: &Live<u64>, id: TaskId, value: u64) -> bool {
    match live.get(id) {
        Some(found) => *found == value,
        None => false,
    }
}

// Whether this value is taken from an id, and nothing is there then.
fn takes_once(live: &mut Live<u64>, id: TaskId, value: u64) -> bool {
    let taken = live.take(id);
    let again = live.take(id);
    taken == Some(value) && again == None && live.get(id).is_none()
}

// Whether each id has the value that was put there last, and an id is reused.
fn gives_ids_again(alloc: Global) -> Result<bool, AllocError> {
    let mut live = Live::new(alloc);
    let first = live.put(10)?;
    let second = live.put(20)?;
    let is_taken = takes_once(&mut live, first, 10);
    let is_written = write(&mut live, second, 21) && has(&live, second, 21);
    let third = live.put(30)?;
    Ok(is_taken && is_written && third == first && has(&live, first, 30))
}

#[test]
fn ids_are_reused(rt: HostRuntime) -> Result<(), Fail> {
    assert!(rt; gives_ids_again(rt.alloc())?);
    Ok(())
}
