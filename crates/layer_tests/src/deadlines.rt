//! `clock`: sleepers are found by the tick from which their scopes see a cancellation.

use cancel_scopes::{ScopeId, ScopeTree};
use clock::{Sleepers, TaskId};
use std::alloc::{AllocError, Global};
use std::test::Fail;

// An outer scope and one inside it, about which nothing else is known here.
fn two_scopes(alloc: Global) -> Result<(ScopeId, ScopeId), AllocError> {
    let mut tree = ScopeTree::new(alloc);
    let outer = tree.open(None, false, Some(9))?;
    let inner = tree.open(Some(outer), false, Some(4))?;
    Ok((outer, inner))
}

// Three sleepers: the first in the outer scope and the others in the inner one.
fn three_sleepers(alloc: Global, outer: ScopeId, inner: ScopeId) -> Result<Sleepers, AllocError> {
    let mut sleepers = Sleepers::new(alloc);
    sleepers.add(TaskId::of(1), outer, Some(9))?;
    sleepers.add(TaskId::of(2), inner, Some(4))?;
    sleepers.add(TaskId::of(3), inner, Some(4))?;
    Ok(sleepers)
}

// The first effective deadline (`sight`), which sleeper sees a cancellation by 3, which one by 4 when the second sleeper is
// removed, and the first effective deadline then.
fn take_seen_in_order(
    sleepers: &mut Sleepers,
) -> (Option<u64>, Option<TaskId>, Option<TaskId>, Option<u64>) {
    let before = sleepers.first();
    let early = sleepers.take_seen(3);
    sleepers.remove(TaskId::of(2));
    let then = sleepers.take_seen(4);
    (before, early, then, sleepers.first())
}

// The first effective deadline (`sight`), as the outer scope sees a cancellation from 6 on, then the inner one, in which no
// task sleeps, from 1 on, and the outer one none.
fn first_deadlines(
    sleepers: &mut Sleepers,
    outer: ScopeId,
    inner: ScopeId,
) -> Result<[Option<u64>; 3], AllocError> {
    sleepers.see(outer, Some(6))?;
    let first = sleepers.first();
    sleepers.see(inner, Some(1))?;
    let second = sleepers.first();
    sleepers.see(outer, None)?;
    Ok([first, second, sleepers.first()])
}

// Whether sleepers are found by the effective deadlines of their scopes.
fn are_found(alloc: Global) -> Result<bool, AllocError> {
    let (outer, inner) = two_scopes(alloc)?;
    let mut sleepers = three_sleepers(alloc, outer, inner)?;
    if take_seen_in_order(&mut sleepers) != (Some(4), None, Some(TaskId::of(3)), Some(9)) {
        return Ok(false);
    }
    Ok(first_deadlines(&mut sleepers, outer, inner)? == [Some(6), Some(6), None])
}

#[test]
fn sleepers_are_found_by_what_their_scopes_see(rt: HostRuntime) -> Result<(), Fail> {
    assert!(rt; are_found(rt.alloc())?);
    Ok(())
}
