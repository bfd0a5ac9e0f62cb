//! `nursery_book`: a nursery ends with its last member, and raises its members' exceptions in the order of their starts.

ghost use Rattle.std.specs.Prelude.{◌≡◌, true, None, [], ◌∷◌, IfOk, OnOk};
ghost use Rattle.nursery_book.specs.Nursery.{is_settled};
ghost use Rattle.nursery_book.specs.Book.{HasNursery};

use crate::fixtures::{label, push_exc, raised_exc, same};
use cancel_scopes::{ScopeId, ScopeTree};
use clock::TaskId;
use exceptions::{Exc, Label};
use nursery_book::{NurseryBook, NurseryId};
use std::alloc::{AllocError, Global};
use std::test::Fail;

// The id of a scope.
fn scope(alloc: Global) -> Result<ScopeId, AllocError> {
    ScopeTree::new(alloc).open(None, false, None)
}

// Opens a nursery in a scope, and starts two children.
fn open_with_two(book: &mut NurseryBook, scope: ScopeId, label: Label) -> Result<NurseryId, Fail>
    ensures { IfOk result (λ id. HasNursery book.new id (λ n. (n.body ≡ None) × (n.children ≡ None ∷ None ∷ []))) }
{
    let waiter = TaskId::of(4);
    let id = book.open(scope, waiter, label)?;
    let first = book.start(id)?;
    let second = book.start(id)?;
    if first != 0 || second != 1 {
        return Err("children have their places in the order of their starts")?;
    }
    if book.scope(id) != scope || book.waiter(id) != waiter {
        return Err("a nursery keeps its scope and its waiter")?;
    }
    Ok(id)
}

// The second child ends, then the body, and then the first child.
fn end_out_of_order(
    book: &mut NurseryBook,
    id: NurseryId,
    first: Exc,
    second: Exc,
) -> Result<(), Fail>
    requires { HasNursery book.old id (λ n. (n.body ≡ None) × (n.children ≡ None ∷ None ∷ [])) }
    ensures { OnOk result (HasNursery book.new id (λ n. is_settled n ≡ true)) }
{
    book.child_ended(id, 1, Some(second), 3);
    book.body_ended(id, None, 4);
    let early = book.settled(id);
    book.child_ended(id, 0, Some(first), 4);
    if early || !book.settled(id) {
        return Err("a nursery is settled once all members have ended")?;
    }
    Ok(())
}

// What a nursery raises if its second child ends before its first.
fn exc_of_nursery(
    alloc: Global,
    scope: ScopeId,
    label: Label,
    first: Exc,
    second: Exc,
) -> Result<Option<Exc>, Fail> {
    let mut book = NurseryBook::new(alloc);
    let id = open_with_two(&mut book, scope, label)?;
    end_out_of_order(&mut book, id, first, second)?;
    Ok(book.close(id)?)
}

// What a nursery with two children raises if each of them ends with an exception, the second child first.
fn exc_of_two_children(alloc: Global) -> Result<Option<Exc>, Fail> {
    let scope = scope(alloc)?;
    let first = raised_exc(alloc, b"A", b"a")?;
    let second = raised_exc(alloc, b"B", b"b")?;
    exc_of_nursery(alloc, scope, label(alloc, b"n")?, first, second)
}

// The text of an exception, and no bytes for `None`.
fn text_of(alloc: Global, exc: &Option<Exc>) -> Result<Vec<u8>, AllocError> {
    let mut text = Vec::new(alloc);
    if let Some(exc) = exc {
        push_exc(&mut text, exc)?;
    }
    Ok(text)
}

#[test]
fn group_of_children_that_end_out_of_order(rt: HostRuntime) -> Result<(), Fail> {
    let exc = exc_of_two_children(rt.alloc())?;
    let text = text_of(rt.alloc(), &exc)?;
    same(text.as_slice(), b"n[A@a@0;B@b@0;]")
}

// Whether a nursery whose body ended without an exception, and which has no child, is settled and raises nothing.
fn raises_nothing(alloc: Global, scope: ScopeId, label: Label) -> Result<bool, Fail> {
    let mut book = NurseryBook::new(alloc);
    let id = book.open(scope, TaskId::of(4), label)?;
    book.body_ended(id, None, 0);
    if !book.settled(id) {
        return Ok(false);
    }
    Ok(book.close(id)?.is_none())
}

// Whether a nursery of some scope and label, whose body ended without an exception, and which has no child, is settled and raises
// nothing.
fn some_raises_nothing(alloc: Global) -> Result<bool, Fail> {
    let scope = scope(alloc)?;
    raises_nothing(alloc, scope, label(alloc, b"n")?)
}

#[test]
fn group_of_nothing(rt: HostRuntime) -> Result<(), Fail> {
    assert!(rt; some_raises_nothing(rt.alloc())?);
    Ok(())
}
