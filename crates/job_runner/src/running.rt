ghost use Rattle.std.specs.Prelude.{◌≡◌, ◌+◌, ◌*◌, ◌<◌, ◌≤◌, IfOk, IfErr, OnOk, length};
ghost use Rattle.job_meaning.specs.declared.limits.TheConstants.{MAX_INPUT};
ghost use Rattle.job_meaning.specs.Clocks.{clock_of};
ghost use Rattle.job_meaning.specs.GrantTable.{AreGrantsOf};
ghost use Rattle.job_meaning.specs.Meaning.{meaning_end, meaning_cancelled_from, meaning_grants};
ghost use Rattle.job_meaning.specs.Shown.{meaning_rows};
ghost use Rattle.job_tree.specs.Names.{size_of};
ghost use Rattle.task_table.specs.Records.{AreSlices};
ghost use Rattle.job_runner.specs.declared.runner.Phase.TheVariants.{Over, Ready};
ghost use Rattle.job_runner.specs.Limits.{last_tick};
ghost use Rattle.job_runner.specs.Phases.{phase_of};
ghost use Rattle.job_runner.specs.declared.limits.TheConstants.{MAX_WORKERS};
ghost use Rattle.job_runner.specs.Runs.{IsRun, name_of, rows_of, records_in, scopes_cancelled_from_of, grants_of, granted_in, turns_of, IsLate};
ghost use Rattle.job_runner.specs.Shelves.{IsSameJob, IsUnderway};

use crate::fault::RunFault;
use crate::finished::Run;
use crate::limits::last_tick;
use crate::runner::{Phase, Runner};
use crate::settings::Settings;
use input_lines::Request;
use job_meaning::Clock;
use job_reader::{Job, spelled_jobs_are_sound};
use std::alloc::{AllocError, Global};
use std::thread::Threads;
use task_table::Pick;
use workers::{Gate, work};

/// Runs a job over an input of at most `MAX_INPUT` bytes, in turns of its tasks, one moment after another. The result is that of
/// the job's one-thread meaning, whatever the number of workers, the order of picks and the gate: its records, or `Limit` exactly
/// if the meaning ends later than the limit. Instead of either it may return that memory runs out. The picker picks each turn.
/// The workers compute the answers to the requests of all tasks that are ready together, and call the gate before and after each.
/// A worker is a thread of its own only where it has 262,144 bytes to search.
pub fn run<'a, R: Threads + Sync, P: Pick, G: Gate + Sync>(
    rt: &R,
    alloc: Global,
    job: &'a Job,
    input: &'a [u8],
    settings: Settings,
    picker: &mut P,
    gate: &G,
) -> Result<Run<'a>, RunFault>
    requires { length input.now ≤ MAX_INPUT }
    ensures name { IfOk result (λ run. name_of run ≡ job.now.name) }
    ensures records { IfOk result (λ run. rows_of run ≡ meaning_rows job.now input.now) }
    ensures lines { IfOk result (λ run. AreSlices input.now (records_in run)) }
    ensures cancelled_from { IfOk result (λ run. scopes_cancelled_from_of run ≡ meaning_cancelled_from job.now input.now) }
    ensures granted { IfOk result (λ run. grants_of run ≡ meaning_grants job.now input.now) }
    ensures lent { IfOk result (λ run. AreGrantsOf input.now (granted_in run)) }
    ensures turns { IfOk result (λ run. turns_of run ≤ 2 * size_of job.now.steps + 1) }
    ensures in_time { IfOk result (λ _. meaning_end job.now input.now ≤ settings.limit) }
    ensures late { IfErr result (IsLate job.now input.now settings.limit) }
{
    let run = run_until(
        rt,
        alloc,
        job,
        input,
        settings.workers(),
        settings.limit(),
        picker,
        gate,
    )?;
    Ok(run)
}

/// Runs a job over an input to its end, however late that is: `forever` sleeps until tick two to the 40. So the result is that of
/// the job's meaning in every case, with the tick from which each scope and nursery is cancelled. There are 1 to 64 workers. The
/// only error is that memory runs out. Picker and gate are those of [`run`].
pub fn run_to_end<'a, R: Threads + Sync, P: Pick, G: Gate + Sync>(
    rt: &R,
    alloc: Global,
    job: &'a Job,
    input: &'a [u8],
    workers: usize,
    picker: &mut P,
    gate: &G,
) -> Result<Run<'a>, AllocError>
    requires small { length input.now ≤ MAX_INPUT }
    requires some_workers { 1 ≤ workers }
    requires few_workers { workers ≤ MAX_WORKERS }
    ensures name { IfOk result (λ run. name_of run ≡ job.now.name) }
    ensures records { IfOk result (λ run. rows_of run ≡ meaning_rows job.now input.now) }
    ensures lines { IfOk result (λ run. AreSlices input.now (records_in run)) }
    ensures turns { IfOk result (λ run. turns_of run ≤ 2 * size_of job.now.steps + 1) }
    ensures cancelled_from { IfOk result (λ run. scopes_cancelled_from_of run ≡ meaning_cancelled_from job.now input.now) }
    ensures granted { IfOk result (λ run. grants_of run ≡ meaning_grants job.now input.now) }
    ensures lent { IfOk result (λ run. AreGrantsOf input.now (granted_in run)) }
{
    spelled_jobs_are_sound();
    let _steps = job.steps();
    let last = last_tick(Clock::of(job.text_format()));
    match run_until(rt, alloc, job, input, workers, last, picker, gate) {
        Ok(run) => Ok(run),
        Err(RunFault::Limit { .. }) => unreachable!(),
        Err(RunFault::NoMemory) => Err(AllocError),
    }
}

// Runs a job in turns of its tasks, one moment after another, up to a limit.
fn run_until<'a, R: Threads + Sync, P: Pick, G: Gate + Sync>(
    rt: &R,
    alloc: Global,
    job: &'a Job,
    input: &'a [u8],
    workers: usize,
    limit: u64,
    picker: &mut P,
    gate: &G,
) -> Result<Run<'a>, RunFault>
    requires small { length input.now ≤ MAX_INPUT }
    requires some_workers { 1 ≤ workers }
    requires few_workers { workers ≤ MAX_WORKERS }
    requires bounded { limit ≤ last_tick (clock_of job.now.format) }
    ensures run { IfOk result (IsRun job.now input.now) }
    ensures turns { IfOk result (λ run. turns_of run ≤ 2 * size_of job.now.steps + 1) }
    ensures in_time { IfOk result (λ _. meaning_end job.now input.now ≤ limit) }
    ensures late { IfErr result (IsLate job.now input.now limit) }
{
    let mut runner = Runner::open(alloc, job, input, limit)?;
    run_phases(rt, alloc, workers, &mut runner, picker, gate)?;
    let run = runner.finish()?;
    Ok(run)
}

// Executes batches of turns, and jumps of the clock between them, until the root has ended. After an error the run can only be
// dropped.
fn run_phases<'a, R: Threads + Sync, P: Pick, G: Gate + Sync>(
    rt: &R,
    alloc: Global,
    workers: usize,
    runner: &mut Runner<'a>,
    picker: &mut P,
    gate: &G,
) -> Result<(), RunFault>
    requires some_workers { 1 ≤ workers }
    requires few_workers { workers ≤ MAX_WORKERS }
    requires underway { IsUnderway runner.old }
    ensures underway { OnOk result (IsUnderway runner.new) }
    ensures over { OnOk result (phase_of runner.new ≡ Over) }
    ensures same { OnOk result (IsSameJob runner.old runner.new) }
    ensures late { IfErr result (IsLate runner.old.job.now runner.old.input.now runner.old.limit) }
{
    'phases: loop {
        match runner.phase() {
            Phase::Ready => {
                run_batch(rt, alloc, workers, runner, picker, gate)?;
            }
            Phase::Blocked => {
                runner.jump_clock()?;
            }
            Phase::Over => return Ok(()),
        }
    }
}

/// The number of bytes that each worker thread has to search at least: to start one takes about as long as to search as many.
const BYTES_FOR_THREAD: usize = 262_144;

// Returns how many of the workers compute a batch of requests. Of a batch with few bytes one does, in the calling thread.
fn threads_for(workers: usize, requests: &[Request<'_>]) -> usize
    requires { 1 ≤ workers }
    ensures { (1 ≤ result) × (result ≤ workers) }
{
    let mut bytes: usize = 0;
    for request in requests {
        bytes = bytes.saturating_add(request.part.text().len());
    }
    (bytes / BYTES_FOR_THREAD).max(1).min(workers)
}

// Executes the turns of the ready tasks, each with the answer to its request, which the workers compute.
fn run_batch<'a, R: Threads + Sync, P: Pick, G: Gate + Sync>(
    rt: &R,
    alloc: Global,
    workers: usize,
    runner: &mut Runner<'a>,
    picker: &mut P,
    gate: &G,
) -> Result<(), AllocError>
    requires some_workers { 1 ≤ workers }
    requires few_workers { workers ≤ 64 }
    requires underway { IsUnderway runner.old }
    requires ready { phase_of runner.old ≡ Ready }
    ensures underway { OnOk result (IsUnderway runner.new) }
    ensures same { OnOk result (IsSameJob runner.old runner.new) }
    ensures turns { OnOk result (runner.old.turns < runner.new.turns) }
{
    let requests = runner.requests()?;
    let threads = threads_for(workers, requests.as_slice());
    let answers = work(rt, alloc, threads, requests.as_slice(), gate)?;
    runner.commit_batch(answers, picker)?;
    Ok(())
}
