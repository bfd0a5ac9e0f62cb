ghost use Rattle.std.specs.Prelude.{◌≡◌, ◌≤◌, length, IfOk};
ghost use Rattle.job_meaning.specs.declared.limits.TheConstants.{MAX_INPUT};
ghost use Rattle.commands.specs.Statuses.{races_status_of};
ghost use Rattle.commands.specs.Races.{IsVerdict};
ghost use Rattle.nursery.specs.Statuses.{Tells, TellsRead, table_form};

use crate::answers::{tell_refusal, tell_running, word_of};
use crate::documents::table_form;
use crate::faults::tell_denied;
use crate::progress::Progress;
use crate::sending::put_answer;
use crate::sources::read_both;
use crate::stop::Stop;
use cli::RacesArgs;
use commands::{Form, RacesVerdict, races};
use job_answers::Question;
use std::rt::Files;
use std::thread::Threads;
use std::time::Clock;

// What is printed if a number of ticks is too large to be made finer.
const NO_FINER_TICKS: &str =
    "error: a `sleep`, `after` or `at` of more than 99999999 ticks has no finer ticks: use a coarser unit of time\n";

// Writes the places of a job file, run over an input file or over no input, where a hair changes the outcome, and returns the
// status. Progress is shown if standard error is a terminal.
pub(crate) fn races_job<R: Files + Input + Print + Eprint + Clock + Threads + Sync + AllocGlobal>(
    rt: &R,
    args: &RacesArgs,
    at_terminal: bool,
) -> Result<u8, Stop>
    ensures { IfOk result (TellsRead races_status_of (λ text input. IsVerdict (table_form args.now.json) text input args.now.settings.limit
        args.now.deny)) }
{
    let given = read_both(rt, args.job.as_str(), word_of(&args.input))?;
    let progress = Progress::new(rt, at_terminal);
    let question = given.question(args.settings);
    races_text(rt, args, &question, table_form(args.json), &progress)
}

// Writes the places of a job text, run over an input, where a hair changes the outcome, and returns the status.
fn races_text<R: Print + Eprint + Clock + Threads + Sync + AllocGlobal>(
    rt: &R,
    args: &RacesArgs,
    question: &Question<'_>,
    form: Form,
    progress: &Progress<'_, R>,
) -> Result<u8, Stop>
    requires { length question.now.input.now ≤ MAX_INPUT }
    ensures { IfOk result (Tells races_status_of (IsVerdict form question.now.text.now question.now.input.now question.now.settings.limit
        args.now.deny)) }
{
    let answer = races(rt, rt.alloc(), question, args.deny, form, progress);
    progress.clear();
    let verdict = put_answer(rt, answer?)?;
    Ok(conclude_races(rt, args.job.as_str(), question, verdict))
}

// Prints to standard error why the job text is refused, which lines are denied, which tasks have not ended, or that there are no
// finer ticks, and returns the status.
fn conclude_races<R: Eprint + Threads + Sync + AllocGlobal>(
    rt: &R,
    job: &str,
    question: &Question<'_>,
    verdict: RacesVerdict,
) -> u8
    requires { length question.now.input.now ≤ MAX_INPUT }
    ensures { result ≡ races_status_of verdict }
{
    let status = verdict.status();
    match verdict {
        RacesVerdict::JobRefused(fault) => tell_refusal(rt, job, question.text, fault),
        RacesVerdict::Lines { denied } => tell_denied(rt, denied),
        RacesVerdict::Limit => tell_running(rt, question),
        RacesVerdict::NoFinerTicks => {
            let _ = rt.eprint(NO_FINER_TICKS);
        }
    }
    status
}
