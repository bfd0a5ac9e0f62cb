//! A run batch by batch: the results of the calls of `Runner`, for a caller that has the requests of each batch
//! answered.
//!
//! Helpers check the phase before the calls that require one, so that the tests have nothing to prove. A run is dropped in helpers
//! of their own, since the borrow checker writes its drop out on each way out of a function.

ghost use Rattle.std.specs.Prelude.{◌≤◌, IfOk};
ghost use Rattle.workers.specs.Slots.{AreAnswers};
ghost use Rattle.task_table.specs.Entries.{requests_of};
ghost use Rattle.job_runner.specs.Shelves.{IsUnderway};

use crate::fixtures::{LIMIT, TWO_LINES};
use input_lines::{Answer, Kernel, Request};
use job_reader::{Job, read_job};
use job_runner::{Entry, Forward, MAX_INPUT, NoGate, Phase, Run, RunFault, Runner};
use std::alloc::{AllocError, Global};
use std::test::Fail;
use std::thread::Threads;
use workers::work;

// Returns the run of a job at its beginning.
fn open_run<'a>(alloc: Global, job: &'a Job, input: &'a [u8]) -> Result<Runner<'a>, Fail>
    ensures { IfOk result IsUnderway }
{
    if input.len() > MAX_INPUT {
        return Err("the input is too long")?;
    }
    let runner = Runner::open(alloc, job, input, LIMIT)?;
    Ok(runner)
}

// Returns why a test fails that has a run, which is dropped.
fn dropped(_runner: Runner<'_>, fail: Fail) -> Fail {
    fail
}

// Returns a run if what was found of it holds, and fails if it does not, or if memory ran out.
fn expecting<'a>(runner: Runner<'a>, holds: Result<bool, AllocError>) -> Result<Runner<'a>, Fail>
    requires { IsUnderway runner }
    ensures { IfOk result IsUnderway }
{
    match holds {
        Ok(true) => Ok(runner),
        Ok(false) => Err(dropped(runner, Fail::from("the run is in another state"))),
        Err(error) => Err(dropped(runner, Fail::from(error))),
    }
}

// Returns the requests of a run. If memory runs out they are requested again.
fn requests_again<'a>(runner: &Runner<'a>) -> Result<Vec<Request<'a>>, AllocError> {
    if let Ok(requests) = runner.requests() {
        return Ok(requests);
    }
    runner.requests()
}

// Returns whether a run is ready, and none of its tasks makes a request.
fn asks_nothing(runner: &Runner<'_>) -> Result<bool, AllocError>
    requires { IsUnderway runner.now }
{
    let requests = requests_again(runner)?;
    Ok(requests.is_empty() && runner.phase() == Phase::Ready)
}

// Returns whether a request searches the whole of that input for a string.
fn is_search(request: &Request<'_>, needle: &[u8], input: &[u8]) -> bool {
    let Kernel::Find(found) = request.kernel else {
        return false;
    };
    found == needle && request.part.at() == 0 && request.part.text() == input
}

// Returns whether a run is ready, and one of its tasks searches the whole of that input for a string, and no other makes a
// request.
fn asks_for(runner: &Runner<'_>, needle: &[u8], input: &[u8]) -> Result<bool, AllocError>
    requires { IsUnderway runner.now }
{
    let requests = requests_again(runner)?;
    if requests.len() != 1 || runner.phase() != Phase::Ready {
        return Ok(false);
    }
    match requests.as_slice().first() {
        Some(request) => Ok(is_search(request, needle, input)),
        None => Ok(false),
    }
}

// Returns the answers to the requests of a run, of which there are as many as the caller says. A worker answers them.
fn answers_to<'a, R: Threads + Sync + AllocGlobal>(
    rt: &R,
    runner: &Runner<'a>,
    count: usize,
) -> Result<Vec<Answer<'a>>, Fail>
    requires { count ≤ 1 }
    ensures { IfOk result (λ answers. AreAnswers (requests_of runner.now.batch.current) answers.items) }
{
    let requests = runner.requests()?;
    let asked = requests.as_slice();
    if asked.len() != count {
        return Err("so many requests are made")?;
    }
    let answers = work(rt, rt.alloc(), 1, asked, &NoGate)?;
    Ok(answers)
}

// Returns a run after the turns of its batch, which makes one request or none, as the caller says.
fn commit_batch<'a, R: Threads + Sync + AllocGlobal>(
    rt: &R,
    runner: Runner<'a>,
    count: usize,
) -> Result<Runner<'a>, Fail>
    requires few { count ≤ 1 }
    requires underway { IsUnderway runner }
    ensures { IfOk result IsUnderway }
{
    match answers_to(rt, &runner, count) {
        Ok(answers) => {
            let runner = runner.commit(answers, &mut Forward)?;
            Ok(runner)
        }
        Err(fail) => Err(dropped(runner, fail)),
    }
}

// Returns a run after the jump of its clock.
fn jump_clock<'a>(runner: Runner<'a>) -> Result<Runner<'a>, Fail>
    requires { IsUnderway runner }
    ensures { IfOk result IsUnderway }
{
    let Phase::Blocked = runner.phase() else {
        return Err(dropped(runner, Fail::from("no task sleeps")));
    };
    let runner = runner.jump()?;
    Ok(runner)
}

// Returns the limit that the jump of a run's clock would pass, and fails if it passes none.
fn limit_of_jump(runner: Runner<'_>) -> Result<u64, Fail>
    requires { IsUnderway runner }
{
    let Phase::Blocked = runner.phase() else {
        return Err(dropped(runner, Fail::from("no task sleeps")));
    };
    match runner.jump() {
        Ok(runner) => Err(dropped(runner, Fail::from("the clock has jumped"))),
        Err(RunFault::Limit { limit }) => Ok(limit),
        Err(RunFault::NoMemory) => Err(AllocError)?,
    }
}

// Returns a run whose root has ended, finished.
fn finish_run<'a>(runner: Runner<'a>) -> Result<Run<'a>, Fail>
    requires { IsUnderway runner }
{
    let Phase::Over = runner.phase() else {
        return Err(dropped(runner, Fail::from("the root has not ended")));
    };
    let run = runner.finish()?;
    Ok(run)
}

// Returns whether an entry is that line.
fn is_line(entry: Option<&Entry<'_>>, at: usize, text: &[u8]) -> bool {
    match entry {
        Some(Entry::Line(line)) => line.at() == at && line.text() == text,
        _other => false,
    }
}

// Returns whether the first thing that the root of a run noted is that line.
fn has_noted_line(run: &Run<'_>, at: usize, text: &[u8]) -> bool {
    match run.records().first() {
        Some(root) => is_line(root.entries.first(), at, text),
        None => false,
    }
}

// Returns whether a finished run has had two turns, and its root has noted that line first.
fn has_shown_in_two_turns(run: Run<'_>, at: usize, text: &[u8]) -> bool {
    run.turns() == 2 && has_noted_line(&run, at, text)
}

#[test]
fn a_search_has_two_batches(rt: HostRuntime) -> Result<(), Fail> {
    let job = read_job(rt.alloc(), b"trio-job 1\njob main { find \"er\"; }")?;
    let runner = open_run(rt.alloc(), &job, TWO_LINES)?;
    let asks_nothing = asks_nothing(&runner);
    let runner = expecting(runner, asks_nothing)?;
    let runner = commit_batch(&rt, runner, 0)?;
    let asks_for_it = asks_for(&runner, b"er", TWO_LINES);
    let runner = expecting(runner, asks_for_it)?;
    let runner = commit_batch(&rt, runner, 1)?;
    let two_turns = runner.turns() == 2;
    let runner = expecting(runner, Ok(two_turns))?;
    let run = finish_run(runner)?;
    assert!(rt; has_shown_in_two_turns(run, 0, b"error"));
    Ok(())
}

#[test]
fn a_jump_past_the_limit_is_refused(rt: HostRuntime) -> Result<(), Fail> {
    let job = read_job(rt.alloc(), b"trio-job 1\njob main { sleep 101; }")?;
    let runner = open_run(rt.alloc(), &job, b"")?;
    let runner = commit_batch(&rt, runner, 0)?;
    assert!(rt; limit_of_jump(runner)? == 100);
    Ok(())
}

#[test]
fn a_jump_to_the_limit_is_made(rt: HostRuntime) -> Result<(), Fail> {
    let job = read_job(rt.alloc(), b"trio-job 1\njob main { sleep 100; }")?;
    let runner = open_run(rt.alloc(), &job, b"")?;
    let runner = commit_batch(&rt, runner, 0)?;
    let runner = jump_clock(runner)?;
    let runner = commit_batch(&rt, runner, 0)?;
    assert!(rt; finish_run(runner)?.turns() == 2);
    Ok(())
}
