ghost use Rattle.std.specs.Prelude.{◌≡◌, ◌≤◌, length, vec_len, IfOk};
ghost use Rattle.std.specs.Option.{option_copied};
ghost use Rattle.job_meaning.specs.declared.limits.TheConstants.{MAX_INPUT};
ghost use Rattle.job_answers.specs.Statuses.{status_of};
ghost use Rattle.job_answers.specs.StoryStatuses.{story_status_of};
ghost use Rattle.job_answers.specs.Verdict.{IsVerdict, IsStoryText};
ghost use Rattle.nursery.specs.Statuses.{Tells};

use crate::documents::{explain_as_json, run_as_json};
use crate::sending::put_answer;
use crate::sources::{read_both, read_feed};
use crate::stop::Stop;
use basics::split_feed;
use cli::{DEFAULT_LIMIT, ExplainArgs, RunArgs, shown_name};
use job_answers::{
    Forward, MAX_INPUT, NoGate, Question, Settings, StoryVerdict, Verdict, WriteOut, explain,
    running_at_limit, send, serve,
};
use job_reader::JobFault;
use refusal_text::refusal_message;
use std::alloc::{AllocError, Global};
use std::io::{self, IsTerminal};
use std::rt::Files;
use std::thread::Threads;

/// How many of the tasks that have not ended at the limit are shown.
const MAX_RUNNING: usize = 10;

/// What is printed at a terminal if the program runs without arguments and waits for its input.
const AWAITED: &str =
    "reading a feed: a job text, a line `%input`, the input, and Ctrl-D after it (see --help)\n";

// Serves standard input with the defaults, and returns the status. If that is a terminal, standard error says first what is
// waited for.
pub(crate) fn run_feed<R: Files + Input + Print + Eprint + Threads + Sync + AllocGlobal>(
    rt: &R,
) -> Result<u8, Stop>
where
    R::Reader: IsTerminal,
{
    if rt.reader().is_terminal() {
        let _ = rt.eprint(AWAITED);
    }
    let feed = read_feed(rt)?;
    let (text, input) = split_feed(feed.as_slice());
    if input.len() > MAX_INPUT {
        return Err(Stop::TooLong);
    }
    let Some(settings) = Settings::new(1, DEFAULT_LIMIT) else {
        unreachable!()
    };
    let question = Question {
        text,
        input,
        settings,
    };
    run_text(rt, "standard input", &question)
}

// Returns the word that a command was given, if it was given one.
pub(crate) fn word_of(word: &Option<String>) -> Option<&str> {
    word.as_ref().map(|name| name.as_str())
}

// Runs a job file over its input, and returns the status.
pub(crate) fn run_job<R: Files + Input + Print + Eprint + Threads + Sync + AllocGlobal>(
    rt: &R,
    args: &RunArgs,
) -> Result<u8, Stop> {
    let given = read_both(rt, args.job.as_str(), word_of(&args.input))?;
    let question = given.question(args.settings);
    if args.json {
        return run_as_json(rt, args.job.as_str(), &question);
    }
    run_text(rt, args.job.as_str(), &question)
}

// Writes the story of a job file over its input, and returns the status.
pub(crate) fn explain_job<R: Files + Input + Print + Eprint + Threads + Sync + AllocGlobal>(
    rt: &R,
    args: &ExplainArgs,
) -> Result<u8, Stop> {
    let given = read_both(rt, args.job.as_str(), word_of(&args.input))?;
    let question = given.question(args.settings);
    let task = word_of(&args.task);
    if args.json {
        return explain_as_json(rt, args.job.as_str(), &question, task);
    }
    explain_text(rt, args.job.as_str(), &question, task)
}

// Writes the story of a job text over an input, and returns the status.
fn explain_text<R: Print + Eprint + Threads + Sync + AllocGlobal>(
    rt: &R,
    job: &str,
    question: &Question<'_>,
    task: Option<&str>,
) -> Result<u8, Stop>
    requires { length question.now.input.now ≤ MAX_INPUT }
    ensures { IfOk result (Tells story_status_of (IsStoryText question.now.text.now question.now.input.now question.now.settings.limit
        (option_copied task.entry))) }
{
    let asked = bytes_of(task);
    let answer = explain(rt, rt.alloc(), question, asked, &mut Forward, &NoGate)?;
    let verdict = put_answer(rt, answer)?;
    Ok(conclude_story(rt, job, question.text, task, verdict))
}

// Prints to standard error why the job text is refused, or that no task has the label that was requested, and returns the status.
pub(crate) fn conclude_story<R: Eprint + AllocGlobal>(
    rt: &R,
    job: &str,
    text: &[u8],
    task: Option<&str>,
    verdict: StoryVerdict,
) -> u8
    ensures { result ≡ story_status_of verdict }
{
    let status = verdict.status();
    match verdict {
        StoryVerdict::JobRefused(fault) => tell_refusal(rt, job, text, fault),
        StoryVerdict::NoTask { nearest } => tell_no_task(rt, task, nearest),
        _ => {}
    }
    status
}

// Returns the bytes of a label, if there is one.
pub(crate) fn bytes_of(label: Option<&str>) -> Option<&[u8]>
    ensures { option_copied result ≡ option_copied label.entry }
{
    match label {
        Some(label) => Some(label.as_bytes()),
        None => None,
    }
}

// Prints to standard error that no task has the label that was requested, and which one is the nearest. If memory or a write
// fails here nothing more is printed.
pub(crate) fn tell_no_task<R: Eprint + AllocGlobal>(rt: &R, task: Option<&str>, nearest: Vec<u8>) {
    let (Some(task), Ok(nearest)) = (task, String::from_utf8(nearest)) else {
        return;
    };
    if let Ok(message) = no_task_message(rt.alloc(), task, nearest.as_str()) {
        let _ = rt.eprint(message.as_str());
    }
}

// Returns the message that no task has the label, which is shown as the name of a file is.
fn no_task_message(alloc: Global, task: &str, nearest: &str) -> Result<String, AllocError> {
    let shown = shown_name(alloc, task)?;
    format!(in alloc; "error: no task has the label `{shown}`: did you mean `{nearest}`?\n")
}

// Runs a job text over an input, and returns the status.
fn run_text<R: Print + Eprint + Threads + Sync + AllocGlobal>(
    rt: &R,
    job: &str,
    question: &Question<'_>,
) -> Result<u8, Stop>
    requires { length question.now.input.now ≤ MAX_INPUT }
    ensures { IfOk result (Tells status_of (IsVerdict question.now.text.now question.now.input.now question.now.settings.limit)) }
{
    let (alloc, text, input, settings) = (
        rt.alloc(),
        question.text,
        question.input,
        question.settings,
    );
    let mut out = WriteOut::new(io::writer(rt));
    let verdict = serve(
        rt,
        alloc,
        text,
        input,
        settings,
        &mut Forward,
        &NoGate,
        &mut out,
    )?;
    Ok(conclude_run(rt, job, question, verdict))
}

// Prints to standard error why the job text is refused, or which tasks have not ended, and returns the status.
pub(crate) fn conclude_run<R: Eprint + Threads + Sync + AllocGlobal>(
    rt: &R,
    job: &str,
    question: &Question<'_>,
    verdict: Verdict,
) -> u8
    requires { length question.now.input.now ≤ MAX_INPUT }
    ensures { result ≡ status_of verdict }
{
    match verdict {
        Verdict::JobRefused(fault) => tell_refusal(rt, job, question.text, fault),
        Verdict::Limit => tell_running(rt, question),
        Verdict::Done | Verdict::Raised => {}
    }
    verdict.status()
}

// Prints to standard error which tasks have not ended at the limit, and what each is doing: a line for each of the first
// `MAX_RUNNING` tasks, and then how many there are beyond them. The limit's line is on standard output already, so if memory or a
// write fails here nothing more is printed.
pub(crate) fn tell_running<R: Eprint + Threads + Sync + AllocGlobal>(
    rt: &R,
    question: &Question<'_>,
)
    requires { length question.now.input.now ≤ MAX_INPUT }
{
    let Ok(lines) = running_at_limit(rt, rt.alloc(), question, &mut Forward, &NoGate) else {
        return;
    };
    if let Ok(lines) = String::from_utf8(lines) {
        let _ = rt.eprint("these tasks have not ended:\n");
        show_first_lines(rt, lines.as_str());
    }
}

// Prints the first lines of a text to standard error, and how many more there are.
fn show_first_lines<R: Eprint>(rt: &R, text: &str) {
    let mut shown = 0;
    let mut more = 0_usize;
    'lines: for line in text.lines() {
        if shown < MAX_RUNNING {
            let _ = eprint!(rt; "{line}\n");
            shown += 1;
        } else {
            more = more.saturating_add(1);
        }
    }
    if more > 0 {
        let _ = eprint!(rt; "  and {more} more\n");
    }
}

// Prints a refusal to standard error. Its line is on standard output already, so if memory or a write fails here nothing more is
// printed.
pub(crate) fn tell_refusal<R: Eprint + AllocGlobal>(
    rt: &R,
    job: &str,
    text: &[u8],
    fault: JobFault,
) {
    let Ok(name) = shown_name(rt.alloc(), job) else {
        return;
    };
    if let Ok(message) = refusal_message(rt.alloc(), name.as_str(), text, fault) {
        let _ = rt.eprint(message.as_str());
    }
}

// Writes a text that was requested, and returns the status.
pub(crate) fn show_help<R: Print>(rt: &R, text: &str) -> Result<u8, Stop> {
    let mut out = WriteOut::new(io::writer(rt));
    match send(text.as_bytes(), &mut out) {
        Ok(()) => Ok(0),
        Err(_) => Err(Stop::Write),
    }
}
