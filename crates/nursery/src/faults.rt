ghost use Rattle.std.specs.Prelude.{◌≡◌, ◌≤◌, length, IfOk};
ghost use Rattle.job_meaning.specs.declared.limits.TheConstants.{MAX_INPUT};
ghost use Rattle.outcomes.specs.Views.{options_held};
ghost use Rattle.commands.specs.Statuses.{faults_status_of};
ghost use Rattle.commands.specs.Faults.{IsVerdict};
ghost use Rattle.nursery.specs.Statuses.{Tells, TellsRead, table_form};

use crate::answers::{tell_refusal, word_of};
use crate::documents::table_form;
use crate::progress::Progress;
use crate::sending::put_answer;
use crate::sources::read_both;
use crate::stop::Stop;
use cli::FaultsArgs;
use commands::{FaultsVerdict, Form, faults};
use job_answers::Question;
use std::rt::Files;
use std::thread::Threads;
use std::time::Clock;

// Writes the outcome of a job file over an input file, or over no input, with each fault of it, and returns the status. Progress
// is shown if standard error is a terminal.
pub(crate) fn faults_job<R: Files + Input + Print + Eprint + Clock + Threads + Sync + AllocGlobal>(
    rt: &R,
    args: &FaultsArgs,
    at_terminal: bool,
) -> Result<u8, Stop>
    ensures { IfOk result (TellsRead faults_status_of (λ text input. IsVerdict (table_form args.now.json) text input args.now.settings.limit
        (options_held args.now.options))) }
{
    let given = read_both(rt, args.job.as_str(), word_of(&args.input))?;
    let progress = Progress::new(rt, at_terminal);
    let question = given.question(args.settings);
    faults_text(rt, args, &question, table_form(args.json), &progress)
}

// Writes the outcome of a job text over an input with each fault of it, and returns the status.
fn faults_text<R: Print + Eprint + Clock + Threads + Sync + AllocGlobal>(
    rt: &R,
    args: &FaultsArgs,
    question: &Question<'_>,
    form: Form,
    progress: &Progress<'_, R>,
) -> Result<u8, Stop>
    requires { length question.now.input.now ≤ MAX_INPUT }
    ensures { IfOk result (Tells faults_status_of (IsVerdict form question.now.text.now question.now.input.now question.now.settings.limit
        (options_held args.now.options))) }
{
    let answer = faults(rt, rt.alloc(), question, &args.options, form, progress);
    progress.clear();
    let verdict = put_answer(rt, answer?)?;
    Ok(conclude_faults(rt, args.job.as_str(), question.text, verdict))
}

// Prints to standard error why the job text is refused, or which lines are denied, and returns the status.
fn conclude_faults<R: Eprint + AllocGlobal>(
    rt: &R,
    job: &str,
    text: &[u8],
    verdict: FaultsVerdict,
) -> u8
    ensures { result ≡ faults_status_of verdict }
{
    let status = verdict.status();
    match verdict {
        FaultsVerdict::JobRefused(fault) => tell_refusal(rt, job, text, fault),
        FaultsVerdict::Lines { denied } => tell_denied(rt, denied),
    }
    status
}

// Prints to standard error the lines that are denied, if there are any. They are on standard output already, so if a write fails
// here nothing more is printed.
pub(crate) fn tell_denied<R: Eprint>(rt: &R, denied: Vec<u8>) {
    if let Ok(lines) = String::from_utf8(denied) {
        let _ = rt.eprint(lines.as_str());
    }
}
