//! `clock`: the first tick with its key.

use clock::TickQueue;
use std::alloc::{AllocError, Global};
use std::test::Fail;

// A queue of three keys, about which nothing else is known here.
fn three_keys(alloc: Global) -> Result<TickQueue, AllocError> {
    let mut queue = TickQueue::new(alloc);
    queue.add(4, 9)?;
    queue.add(2, 5)?;
    queue.add(3, 5)?;
    Ok(queue)
}

// The first key with its tick, at the start and after each change of a queue of three keys.
fn firsts(queue: &mut TickQueue) -> Result<[Option<(u64, usize)>; 4], AllocError> {
    let first = queue.first();
    queue.set(2, 7)?;
    let second = queue.first();
    queue.set(3, 5)?;
    queue.set(6, 1)?;
    let third = queue.first();
    queue.remove(6);
    queue.remove(3);
    queue.remove(3);
    Ok([first, second, third, queue.first()])
}

// The first key of a new queue of three keys with its tick, at the start and after each change.
fn firsts_of_three(alloc: Global) -> Result<[Option<(u64, usize)>; 4], AllocError> {
    let mut queue = three_keys(alloc)?;
    firsts(&mut queue)
}

#[test]
fn the_earliest_tick_comes_first(rt: HostRuntime) -> Result<(), Fail> {
    assert!(rt; TickQueue::new(rt.alloc()).first() == None);
    let found = firsts_of_three(rt.alloc())?;
    assert!(rt; found == [Some((5, 2)), Some((5, 3)), Some((1, 6)), Some((7, 2))]);
    Ok(())
}
