ghost use Rattle.std.specs.Prelude.{◌≡◌, ◌≤◌, length, IfOk};
ghost use Rattle.job_meaning.specs.declared.limits.TheConstants.{MAX_INPUT};
ghost use Rattle.commands.specs.Statuses.{sweep_status_of};
ghost use Rattle.commands.specs.Sweeps.{IsVerdict};
ghost use Rattle.nursery.specs.Statuses.{Tells};

use crate::answers::{tell_refusal, word_of};
use crate::documents::table_form;
use crate::progress::Progress;
use crate::sending::put_answer;
use crate::sources::read_both;
use crate::stop::Stop;
use cli::{SweepArgs, shown_name};
use commands::{Form, SweepVerdict, sweep};
use job_answers::Question;
use job_edits::Target;
use job_tree::Name;
use refusal_text::pointed_message;
use std::alloc::{AllocError, Global};
use std::rt::Files;
use std::thread::Threads;
use std::time::Clock;
use trials::Missing;

// Writes the outcome of a job file over an input file, or over no input, for each of these values of one of its numbers, and
// returns the status. Progress is shown if standard error is a terminal.
pub(crate) fn sweep_job<R: Files + Input + Print + Eprint + Clock + Threads + Sync + AllocGlobal>(
    rt: &R,
    args: &SweepArgs,
    at_terminal: bool,
) -> Result<u8, Stop> {
    let given = read_both(rt, args.job.as_str(), word_of(&args.input))?;
    let progress = Progress::new(rt, at_terminal);
    let question = given.question(args.settings);
    sweep_text(rt, args, &question, table_form(args.json), &progress)
}

// Writes the outcome of a job text over an input for each value, and returns the status.
fn sweep_text<R: Print + Eprint + Clock + Threads + Sync + AllocGlobal>(
    rt: &R,
    args: &SweepArgs,
    question: &Question<'_>,
    form: Form,
    progress: &Progress<'_, R>,
) -> Result<u8, Stop>
    requires { length question.now.input.now ≤ MAX_INPUT }
    ensures { IfOk result (Tells sweep_status_of (IsVerdict form question.now.text.now question.now.input.now question.now.settings.limit
        args.now.target args.now.values.items)) }
{
    let (target, values) = (args.target, args.values.as_slice());
    let answer = sweep(rt, rt.alloc(), question, target, values, form, progress);
    progress.clear();
    let verdict = put_answer(rt, answer?)?;
    Ok(conclude_sweep(rt, args, question.text, verdict))
}

// Prints to standard error why the job text is refused, or why it does not have the number that is meant, and returns the status.
fn conclude_sweep<R: Eprint + AllocGlobal>(
    rt: &R,
    args: &SweepArgs,
    text: &[u8],
    verdict: SweepVerdict,
) -> u8
    ensures { result ≡ sweep_status_of verdict }
{
    let status = verdict.status();
    match verdict {
        SweepVerdict::JobRefused(fault) => tell_refusal(rt, args.job.as_str(), text, fault),
        SweepVerdict::NoTarget(missing) => {
            tell_missing(rt, args.job.as_str(), text, &args.target, &missing)
        }
        SweepVerdict::Lines => {}
    }
    status
}

// Prints to standard error why the text does not have the number that is meant. If memory or a write fails here nothing more is
// printed.
fn tell_missing<R: Eprint + AllocGlobal>(
    rt: &R,
    job: &str,
    text: &[u8],
    target: &Target,
    missing: &Missing,
) {
    if let Ok(message) = missing_message(rt.alloc(), job, text, target, missing) {
        let _ = rt.eprint(message.as_str());
    }
}

// Returns the message that says why the text does not have the number that is meant.
fn missing_message(
    alloc: Global,
    job: &str,
    text: &[u8],
    target: &Target,
    missing: &Missing,
) -> Result<String, AllocError> {
    match missing {
        Missing::NoNumber { at } => no_number_message(alloc, job, text, *at),
        Missing::NoPlace => no_place_message(alloc, target),
        Missing::NoDeadline => no_deadline_message(alloc, target),
        Missing::NoBlock { nearest } => no_block_message(alloc, target, nearest),
    }
}

// Returns the message that no number begins at a place, with what is there.
fn no_number_message(
    alloc: Global,
    job: &str,
    text: &[u8],
    at: usize,
) -> Result<String, AllocError> {
    let name = shown_name(alloc, job)?;
    pointed_message(alloc, name.as_str(), text, at, "no number begins here")
}

// Returns the message that the text has no such line and column.
fn no_place_message(alloc: Global, target: &Target) -> Result<String, AllocError> {
    match target {
        Target::At { line, column } => format!(in alloc;
            "error: the job text has no line {line} with a column {column}\n"
        ),
        Target::NumberOf(_) => Ok(String::new(alloc)),
    }
}

// Returns the message that the scope or nursery has no deadline.
fn no_deadline_message(alloc: Global, target: &Target) -> Result<String, AllocError> {
    let name = name_in(target);
    format!(in alloc; "error: `{name}` has no deadline that could be varied: give it `after N`\n")
}

// Returns the message that no scope or nursery has the name, with the nearest name.
fn no_block_message(
    alloc: Global,
    target: &Target,
    nearest: &Option<Name>,
) -> Result<String, AllocError> {
    let name = name_in(target);
    match nearest {
        Some(nearest) => {
            let nearest = shown_word(nearest.bytes());
            format!(in alloc;
                "error: no scope or nursery has the name `{name}`: did you mean `{nearest}`?\n"
            )
        }
        None => format!(in alloc;
            "error: no scope or nursery has the name `{name}`: the job has none\n"
        ),
    }
}

// Returns the name of the scope or nursery whose deadline is meant, or nothing if none is.
fn name_in(target: &Target) -> &str {
    match target {
        Target::NumberOf(name) => shown_word(name.bytes()),
        Target::At { .. } => "",
    }
}

// Returns a name as text. Its bytes are ASCII.
fn shown_word(word: &[u8]) -> &str {
    str::from_utf8(word).unwrap_or("?")
}
