//! Calls that change a value and allocate: if memory runs out the value is unchanged, and the same call, made again, returns
//! what it would have returned. The other modules show it for `serve`, `check` and `upgrade`, those of `layer_tests` for
//! `sleep_until`.
//!
//! With enough memory each call is made once. tests/shortage/refused_growths.py refuses each growth in turn.

ghost use Rattle.std.specs.Prelude.{◌≡◌, ◌<◌, ◌^◌, [], true, None, IfOk, OnOk};
ghost use Rattle.task_table.specs.Entries.{AllPlaced, NonePlaced};
ghost use Rattle.nursery_book.specs.Nursery.{with_start, is_settled};
ghost use Rattle.nursery_book.specs.Book.{HasNursery, Changes};

use cancel_scopes::{ScopeId, ScopeTree};
use clock::TaskId;
use exceptions::{Exc, Label};
use job_reader::Name;
use nursery_book::{ChildIndex, NurseryBook, NurseryId};
use std::alloc::{AllocError, Global};
use std::test::Fail;
use task_table::{Call, Forward, Live, ReadyBatch};

// Opens an outermost scope with a deadline, again if memory runs out.
fn open_outermost(tree: &mut ScopeTree, deadline: u64) -> Result<ScopeId, AllocError>
    requires { deadline < 2 ^ 63 }
{
    if let Ok(id) = tree.open(None, false, Some(deadline)) {
        return Ok(id);
    }
    tree.open(None, false, Some(deadline))
}

// Opens a shielded scope in one that is open.
fn open_shielded(tree: &mut ScopeTree, parent: ScopeId) -> Option<ScopeId> {
    if !tree.is_open(parent) {
        return None;
    }
    tree.open(Some(parent), true, None).ok()
}

// Opens a shielded scope in one that is open, again if memory runs out.
fn open_shielded_again(tree: &mut ScopeTree, parent: ScopeId) -> Result<ScopeId, AllocError> {
    if let Some(id) = open_shielded(tree, parent) {
        return Ok(id);
    }
    open_shielded(tree, parent).ok_or(AllocError)
}

// Cancels a scope, if it is open.
fn cancel(tree: &mut ScopeTree, id: ScopeId, tick: u64)
    requires { tick < 2 ^ 62 }
{
    if tree.is_open(id) {
        tree.cancel(id, tick);
    }
}

// Returns the tick from which a task in a scope sees a cancellation, if the scope is open.
fn seen_from(tree: &ScopeTree, id: ScopeId) -> Option<Option<u64>> {
    if !tree.is_open(id) {
        return None;
    }
    Some(tree.seen_from(id))
}

// Returns whether a task in a scope sees a cancellation in that tick, if the scope is open.
fn seen_at(tree: &ScopeTree, id: ScopeId, tick: u64) -> Option<bool> {
    if !tree.is_open(id) {
        return None;
    }
    Some(tree.seen(id, tick))
}

// Returns whether a scope catches a cancellation that leaves it in that tick, if the scope is open.
fn caught_at(tree: &ScopeTree, id: ScopeId, tick: u64) -> Option<bool> {
    if !tree.is_open(id) {
        return None;
    }
    Some(tree.may_catch(id, tick))
}

// Returns a scope with a deadline, and a shielded one inside it.
fn two_scopes(tree: &mut ScopeTree) -> Result<(ScopeId, ScopeId), AllocError> {
    let outer = open_outermost(tree, 3)?;
    let inner = open_shielded_again(tree, outer)?;
    Ok((outer, inner))
}

// Returns what is seen in such scopes as first the inner and then the outer one is cancelled.
fn seen_by_two(alloc: Global) -> Result<[Option<Option<u64>>; 3], AllocError> {
    let mut tree = ScopeTree::new(alloc);
    let (outer, inner) = two_scopes(&mut tree)?;
    let before = seen_from(&tree, inner);
    cancel(&mut tree, inner, 4);
    let then = seen_from(&tree, inner);
    cancel(&mut tree, outer, 1);
    Ok([before, then, seen_from(&tree, outer)])
}

// Returns whether the outer of such scopes sees its deadline at 2 and at 3, and whether the inner one, cancelled, catches at 5.
fn caught_by_two(alloc: Global) -> Result<[Option<bool>; 3], AllocError> {
    let mut tree = ScopeTree::new(alloc);
    let (outer, inner) = two_scopes(&mut tree)?;
    let early = seen_at(&tree, outer, 2);
    let late = seen_at(&tree, outer, 3);
    cancel(&mut tree, inner, 4);
    Ok([early, late, caught_at(&tree, inner, 5)])
}

#[test]
fn scopes_are_opened_again(rt: HostRuntime) -> Result<(), Fail> {
    let seen = seen_by_two(rt.alloc())?;
    assert!(rt; seen == [Some(None), Some(Some(5)), Some(Some(2))]);
    let found = caught_by_two(rt.alloc())?;
    assert!(rt; found == [Some(false), Some(true), Some(true)]);
    Ok(())
}

// Opens a nursery of that name, again if memory runs out.
fn open_nursery(
    alloc: Global,
    book: &mut NurseryBook,
    scope: ScopeId,
    name: Name,
) -> Result<NurseryId, AllocError>
    ensures { IfOk result (λ id. HasNursery book.new id (λ n. (n.body ≡ None) × (n.children ≡ []))) }
{
    let waiter = TaskId::of(4);
    if let Ok(id) = book.open(scope, waiter, Label::new(alloc, name)) {
        return Ok(id);
    }
    book.open(scope, waiter, Label::new(alloc, name))
}

// Starts a child in a nursery, again if memory runs out.
fn start_again(book: &mut NurseryBook, id: NurseryId) -> Result<ChildIndex, AllocError>
    requires { HasNursery book.old id (λ n. n.body ≡ None) }
    ensures { OnOk result (Changes book.old book.new id with_start) }
{
    if let Ok(index) = book.start(id) {
        return Ok(index);
    }
    book.start(id)
}

// Closes a nursery of which all members ended, again if memory runs out.
fn close_again(book: &mut NurseryBook, id: NurseryId) -> Result<Option<Exc>, AllocError>
    requires { HasNursery book.old id (λ n. is_settled n ≡ true) }
{
    if let Ok(exc) = book.close(id) {
        return Ok(exc);
    }
    book.close(id)
}

// Returns what the task of that name raised, which has the name too.
fn raised_exc(alloc: Global, name: Name) -> Exc {
    Exc::Raised {
        name,
        task: Label::new(alloc, name),
        tick: 0,
    }
}

// Returns what a nursery raises if its second child ends before its first.
fn raised_by_two(
    alloc: Global,
    name: Name,
    first: Name,
    second: Name,
) -> Result<Option<Exc>, Fail> {
    let mut book = NurseryBook::new(alloc);
    let scope = ScopeTree::new(alloc).open(None, false, None)?;
    let id = open_nursery(alloc, &mut book, scope, name)?;
    if start_again(&mut book, id)? != 0 || start_again(&mut book, id)? != 1 {
        return Err("children have their places in the order of their starts")?;
    }
    book.child_ended(id, 1, Some(raised_exc(alloc, second)), 3);
    book.body_ended(id, None, 4);
    if book.settled(id) {
        return Err("the first child has not ended")?;
    }
    book.child_ended(id, 0, Some(raised_exc(alloc, first)), 4);
    if !book.settled(id) {
        return Err("all members have ended")?;
    }
    Ok(close_again(&mut book, id)?)
}

// Returns whether an exception was raised with that name.
fn is_raised(exc: Option<&Exc>, expected: &[u8]) -> bool {
    match exc {
        Some(Exc::Raised { name, .. }) => *name.bytes() == *expected,
        _other => false,
    }
}

// Returns whether an exception is a group of two that were raised with these names.
fn is_group_of(exc: &Option<Exc>, first: &[u8], second: &[u8]) -> bool {
    let Some(Exc::Group { parts, .. }) = exc else {
        return false;
    };
    let parts = parts.as_slice();
    parts.len() == 2 && is_raised(parts.first(), first) && is_raised(parts.last(), second)
}

// Returns the name of these bytes.
fn name_of(text: &[u8]) -> Result<Name, Fail> {
    Ok(Name::new(text).ok_or("a name")?)
}

#[test]
fn a_nursery_is_opened_and_closed_again(rt: HostRuntime) -> Result<(), Fail> {
    let (first, second) = (name_of(b"A")?, name_of(b"B")?);
    let exc = raised_by_two(rt.alloc(), name_of(b"n")?, first, second)?;
    assert!(rt; is_group_of(&exc, b"A", b"B"));
    Ok(())
}

// Puts a value, again if memory runs out.
fn put_again(live: &mut Live<u64>, value: u64) -> Result<TaskId, AllocError> {
    if let Ok(id) = live.put(value) {
        return Ok(id);
    }
    live.put(value)
}

#[test]
fn values_are_put_again(rt: HostRuntime) -> Result<(), Fail> {
    let mut live = Live::new(rt.alloc());
    let id = put_again(&mut live, 10)?;
    assert!(rt; live.get(id) == Some(&10));
    assert!(rt; live.take(id) == Some(10));
    assert!(rt; live.take(id) == None);
    Ok(())
}

// Adds a task that is to begin, again if memory runs out.
fn add_again(batch: &mut ReadyBatch<'static>, key: usize) -> Result<(), AllocError>
    ensures { batch.new.current ≡ batch.old.current }
{
    if batch.add(TaskId::of(key), Call::Begin).is_ok() {
        return Ok(());
    }
    batch.add(TaskId::of(key), Call::Begin)
}

// Places no answers, for tasks of a batch that make no requests.
fn place_none(alloc: Global, batch: &mut ReadyBatch<'static>) -> Result<(), AllocError>
    requires { NonePlaced batch.old.current }
    ensures { OnOk result (AllPlaced batch.new.current) }
{
    let requests = batch.requests()?;
    if !requests.is_empty() {
        return Err(AllocError);
    }
    batch.place(Vec::new(alloc));
    Ok(())
}

// Returns the key of the task that has the next turn of a batch, and 0 if none is left.
fn key_of_next(batch: &mut ReadyBatch<'static>) -> usize
    requires { AllPlaced batch.old.current }
    ensures { AllPlaced batch.new.current }
{
    match batch.next(&mut Forward) {
        Some((task, _wake)) => task.key(),
        None => 0,
    }
}

// Returns the keys of two tasks, which make no requests, as they have their turns, and the result when none is left.
fn keys_of_two(alloc: Global) -> Result<[usize; 3], AllocError> {
    let mut batch = ReadyBatch::new(alloc);
    add_again(&mut batch, 1)?;
    add_again(&mut batch, 2)?;
    batch.turn_over();
    place_none(alloc, &mut batch)?;
    let first = key_of_next(&mut batch);
    let second = key_of_next(&mut batch);
    Ok([first, second, key_of_next(&mut batch)])
}

#[test]
fn tasks_are_added_again(rt: HostRuntime) -> Result<(), Fail> {
    assert!(rt; keys_of_two(rt.alloc())? == [1, 2, 0]);
    Ok(())
}
