//! `workers`: each number of a batch is drawn once, by one thread or by two.

ghost use Rattle.std.specs.Prelude.{◌≡◌, false, All};
ghost use Rattle.workers.specs.Claims.{IsPassOf, is_spent};

use std::alloc::Global;
use std::test::Fail;
use std::thread;
use std::thread::Threads;
use workers::{Claims, Pass};

// Whether two tickets draw two numbers in order, and nothing is left for the first then.
fn draw_two(alloc: Global) -> Result<bool, Fail> {
    let (claims, mut passes) = Claims::new(alloc, 2, 2)?;
    let first = claims.claim(&mut passes[0]);
    if first != Some(0) {
        return Ok(false);
    }
    let second = claims.claim(&mut passes[1]);
    let third = claims.claim(&mut passes[0]);
    if third.is_some() {
        return Ok(false);
    }
    let sum = claims.close(passes);
    Ok(second == Some(1) && sum == 2)
}

#[test]
fn two_passes_claim_two_requests(rt: HostRuntime) -> Result<(), Fail> {
    assert!(rt; draw_two(rt.alloc())?);
    Ok(())
}

// Whether nothing is left if there are no numbers, and none was drawn.
fn draw_none(alloc: Global) -> Result<bool, Fail> {
    let (claims, mut passes) = Claims::new(alloc, 0, 1)?;
    let first = claims.claim(&mut passes[0]);
    if first.is_some() {
        return Ok(false);
    }
    Ok(claims.close(passes) == 0)
}

#[test]
fn there_is_nothing_to_claim_of_no_requests(rt: HostRuntime) -> Result<(), Fail> {
    assert!(rt; draw_none(rt.alloc())?);
    Ok(())
}

// A worker's ticket and the number that it drew.
#[derive(Drop)]
struct Worker {
    pass: Pass,
    number: Option<usize>,
}

// Lets each of two threads draw a number with its worker's ticket.
fn claim_in_two_threads<R: Threads + Sync>(rt: &R, claims: &Claims, workers: &mut [Worker])
    requires { All (λ worker. IsPassOf claims.now worker.pass × (is_spent worker.pass ≡ false)) workers.old }
{
    thread::for_each_mut(
        rt,
        workers,
        2,
        &|_: usize, worker: &mut Worker|
            requires { IsPassOf claims.now worker.old.pass × (is_spent worker.old.pass ≡ false) }
        { worker.number = claims.claim(&mut worker.pass) },
    );
}

#[test]
fn two_threads_draw_two_numbers(rt: HostRuntime) -> Result<(), Fail> {
    let (claims, mut passes) = Claims::new(rt.alloc(), 2, 2)?;
    let Some(second) = passes.pop() else {
        panic!(rt; "there are two passes")
    };
    let Some(first) = passes.pop() else {
        panic!(rt; "there are two passes")
    };
    let mut workers = [
        Worker {
            pass: first,
            number: None,
        },
        Worker {
            pass: second,
            number: None,
        },
    ];
    claim_in_two_threads(&rt, &claims, &mut workers);
    let drawn = (workers[0].number, workers[1].number);
    assert!(rt; drawn == (Some(0), Some(1)) || drawn == (Some(1), Some(0)));
    Ok(())
}
