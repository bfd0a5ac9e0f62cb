use crate::answers::{conclude_run, word_of};
use crate::progress::Progress;
use crate::sending::put_answer;
use crate::sources::read_both;
use crate::stop::Stop;
use cli::{PageArgs, VERSION};
use page::page;
use std::alloc::AllocError;
use std::rt::Files;
use std::thread::Threads;
use std::time::Clock;

// Writes a page about a job file over an input file, or over no input, and returns the status. Progress is shown if standard
// error is a terminal.
pub(crate) fn page_job<R: Files + Input + Print + Eprint + Clock + Threads + Sync + AllocGlobal>(
    rt: &R,
    args: &PageArgs,
    at_terminal: bool,
) -> Result<u8, Stop> {
    let job = args.job.as_str();
    let given = read_both(rt, job, word_of(&args.input))?;
    let progress = Progress::new(rt, at_terminal);
    let question = given.question(args.settings);
    let made = made_text(rt, args)?;
    let answer = page(rt, rt.alloc(), &question, made.as_bytes(), &progress);
    progress.clear();
    let verdict = put_answer(rt, answer?)?;
    Ok(conclude_run(rt, job, &question, verdict))
}

// Returns how the page is made.
fn made_text<R: AllocGlobal>(rt: &R, args: &PageArgs) -> Result<String, AllocError> {
    let (job, limit) = (args.job.as_str(), args.settings.limit());
    match &args.input {
        Some(input) => {
            let input = input.as_str();
            format!(in rt.alloc();
                "Made by nursery {VERSION}: nursery page {job} {input} --limit {limit}"
            )
        }
        None => format!(in rt.alloc();
            "Made by nursery {VERSION}: nursery page {job} --limit {limit}"
        ),
    }
}
