//! `cancel_scopes`: what scopes see and catch, which scopes enclose them, and what closes or changes them.
//!
//! The calls that require an open scope are made by helpers that test for one, so that the tests have nothing to prove.

ghost use Rattle.std.specs.Prelude.{◌<◌, ◌^◌};
ghost use Rattle.std.specs.Option.{ForSome};

use cancel_scopes::{ScopeId, ScopeTree, earlier, is_reached, stacks_are_chains};
use std::alloc::Global;
use std::test::Fail;

// Opens a scope in one that is open, or an outermost one.
fn open(
    tree: &mut ScopeTree,
    parent: Option<ScopeId>,
    shield: bool,
    deadline: Option<u64>,
) -> Result<ScopeId, Fail>
    requires { ForSome deadline (λ tick. tick < 2 ^ 63) }
{
    let Some(id) = parent else {
        return Ok(tree.open(None, shield, deadline)?);
    };
    if !tree.is_open(id) {
        return Err("the parent is closed")?;
    }
    Ok(tree.open(Some(id), shield, deadline)?)
}

// Cancels a scope, if it is open.
fn cancel(tree: &mut ScopeTree, id: ScopeId, tick: u64)
    requires { tick < 2 ^ 62 }
{
    if tree.is_open(id) {
        tree.cancel(id, tick);
    }
}

// The tick from which a task in the scope sees a cancellation. The outer `None` is for a scope that is closed.
fn seen_from(tree: &ScopeTree, id: ScopeId) -> Option<Option<u64>> {
    if !tree.is_open(id) {
        return None;
    }
    Some(tree.seen_from(id))
}

// Whether a task in the scope sees a cancellation in that tick.
fn seen_at(tree: &ScopeTree, id: ScopeId, tick: u64) -> Option<bool> {
    if !tree.is_open(id) {
        return None;
    }
    Some(tree.seen(id, tick))
}

// Whether the scope catches a cancellation that leaves it in that tick.
fn caught_at(tree: &ScopeTree, id: ScopeId, tick: u64) -> Option<bool> {
    if !tree.is_open(id) {
        return None;
    }
    Some(tree.may_catch(id, tick))
}

// Whether the scope is itself cancelled at that tick, and whether it has a shield.
fn own_of(tree: &ScopeTree, id: ScopeId, tick: u64) -> Option<(bool, bool)> {
    if !tree.is_open(id) {
        return None;
    }
    Some((tree.is_cancelled(id, tick), tree.is_shielded(id)))
}

// The scope that encloses a scope.
fn parent(tree: &ScopeTree, id: ScopeId) -> Option<Option<ScopeId>> {
    if !tree.is_open(id) {
        return None;
    }
    Some(tree.parent(id))
}

// What is seen in a scope with a deadline and in a shielded one inside it, as first the inner and then the outer one is
// cancelled.
fn seen_around_a_shield(alloc: Global) -> Result<[Option<Option<u64>>; 3], Fail> {
    let mut tree = ScopeTree::new(alloc);
    let outer = open(&mut tree, None, false, Some(3))?;
    let inner = open(&mut tree, Some(outer), true, None)?;
    let before = seen_from(&tree, inner);
    cancel(&mut tree, inner, 4);
    let then = seen_from(&tree, inner);
    cancel(&mut tree, outer, 1);
    Ok([before, then, seen_from(&tree, outer)])
}

// Whether a scope with a deadline at 3 sees a cancellation at 2 and at 3, and whether a shielded one inside it catches its
// own cancellation, which is seen from 5 on.
fn sees_and_catches(alloc: Global) -> Result<[Option<bool>; 3], Fail> {
    let mut tree = ScopeTree::new(alloc);
    let outer = open(&mut tree, None, false, Some(3))?;
    let inner = open(&mut tree, Some(outer), true, None)?;
    let early = seen_at(&tree, outer, 2);
    let late = seen_at(&tree, outer, 3);
    cancel(&mut tree, inner, 4);
    Ok([early, late, caught_at(&tree, inner, 5)])
}

// A scope with a deadline at 3 before and at its deadline, and a shielded one inside it at that deadline.
fn own_cancellations(alloc: Global) -> Result<[Option<(bool, bool)>; 3], Fail> {
    let mut tree = ScopeTree::new(alloc);
    let outer = open(&mut tree, None, false, Some(3))?;
    let inner = open(&mut tree, Some(outer), true, None)?;
    Ok([
        own_of(&tree, outer, 2),
        own_of(&tree, outer, 3),
        own_of(&tree, inner, 3),
    ])
}

#[test]
fn a_scope_is_cancelled_by_its_own_deadline(rt: HostRuntime) -> Result<(), Fail> {
    let own = own_cancellations(rt.alloc())?;
    assert!(rt;
        own == [
            Some((false, false)),
            Some((true, false)),
            Some((false, true))
        ]
    );
    Ok(())
}

#[test]
fn a_shield_hides_what_is_outside(rt: HostRuntime) -> Result<(), Fail> {
    let seen = seen_around_a_shield(rt.alloc())?;
    assert!(rt; seen == [Some(None), Some(Some(5)), Some(Some(2))]);
    let found = sees_and_catches(rt.alloc())?;
    assert!(rt; found == [Some(false), Some(true), Some(true)]);
    Ok(())
}

// The changed scopes that are taken, as first the inner and then the outer one of two is cancelled, and the two.
fn changed_scopes(alloc: Global) -> Result<([Option<ScopeId>; 4], ScopeId, ScopeId), Fail> {
    let mut tree = ScopeTree::new(alloc);
    let outer = open(&mut tree, None, false, Some(3))?;
    let inner = open(&mut tree, Some(outer), true, None)?;
    cancel(&mut tree, inner, 4);
    let first = tree.take_changed();
    let second = tree.take_changed();
    cancel(&mut tree, outer, 1);
    let third = tree.take_changed();
    Ok(([first, second, third, tree.take_changed()], outer, inner))
}

#[test]
fn lowered_scopes_are_returned_once(rt: HostRuntime) -> Result<(), Fail> {
    let (found, outer, inner) = changed_scopes(rt.alloc())?;
    assert!(rt; found == [Some(inner), None, Some(outer), None]);
    Ok(())
}

// Whether the inner and the outer one of two scopes with the same deadline catch a cancellation in its tick.
fn caught_by_two(alloc: Global) -> Result<[Option<bool>; 2], Fail> {
    let mut tree = ScopeTree::new(alloc);
    let outer = open(&mut tree, None, false, Some(3))?;
    let inner = open(&mut tree, Some(outer), false, Some(3))?;
    Ok([caught_at(&tree, inner, 3), caught_at(&tree, outer, 3)])
}

#[test]
fn the_outermost_of_two_catches(rt: HostRuntime) -> Result<(), Fail> {
    assert!(rt; caught_by_two(rt.alloc())? == [Some(false), Some(true)]);
    Ok(())
}

// Three nested scopes, the outermost first, and the scope that encloses each.
fn three_scopes(alloc: Global) -> Result<([ScopeId; 3], [Option<Option<ScopeId>>; 3]), Fail> {
    let mut tree = ScopeTree::new(alloc);
    let outer = open(&mut tree, None, false, None)?;
    let middle = open(&mut tree, Some(outer), true, Some(3))?;
    let inner = open(&mut tree, Some(middle), false, None)?;
    stacks_are_chains(&tree);
    let parents = [
        parent(&tree, outer),
        parent(&tree, middle),
        parent(&tree, inner),
    ];
    Ok(([outer, middle, inner], parents))
}

#[test]
fn scopes_have_their_parents(rt: HostRuntime) -> Result<(), Fail> {
    let ([outer, middle, inner], parents) = three_scopes(rt.alloc())?;
    assert!(rt; parents == [Some(None), Some(Some(outer)), Some(Some(middle))]);
    assert!(rt; inner.key() != outer.key());
    Ok(())
}

// The tick from which a scope was cancelled that is closed then, whether its id is reused, and which changed scopes are
// taken.
fn close_and_open(alloc: Global) -> Result<(Option<u64>, bool, Option<ScopeId>), Fail> {
    let mut tree = ScopeTree::new(alloc);
    let first = tree.open(None, false, None)?;
    tree.cancel(first, 4);
    let from = tree.close(first);
    let second = tree.open(None, false, None)?;
    Ok((from, second == first, tree.take_changed()))
}

#[test]
fn a_closed_scope_is_not_returned(rt: HostRuntime) -> Result<(), Fail> {
    assert!(rt; close_and_open(rt.alloc())? == (Some(5), true, None));
    Ok(())
}

// Whether an id is open before its scope is closed, after that, and when it is reused; and the ticks from which the two
// scopes were cancelled.
fn open_by_turns(alloc: Global) -> Result<([bool; 3], [Option<u64>; 2]), Fail> {
    let mut tree = ScopeTree::new(alloc);
    let first = tree.open(None, false, Some(7))?;
    let before = tree.is_open(first);
    let from = tree.close(first);
    let after = tree.is_open(first);
    let second = tree.open(None, false, None)?;
    let again = second == first && tree.is_open(first);
    Ok(([before, after, again], [from, tree.close(second)]))
}

#[test]
fn closing_ends_an_id(rt: HostRuntime) -> Result<(), Fail> {
    let (is_open, from) = open_by_turns(rt.alloc())?;
    assert!(rt; is_open == [true, false, true]);
    assert!(rt; from == [Some(7), None]);
    Ok(())
}

#[test]
fn a_tick_may_never_come(rt: HostRuntime) {
    assert!(rt; earlier(Some(4), None) == Some(4));
    assert!(rt; earlier(Some(4), Some(3)) == Some(3));
    assert!(rt; is_reached(Some(3), 3));
    assert!(rt; !is_reached(None, 3));
}
