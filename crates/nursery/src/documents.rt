ghost use Rattle.std.specs.Prelude.{◌≡◌, ◌≤◌, length, IfOk};
ghost use Rattle.std.specs.Option.{option_copied};
ghost use Rattle.job_meaning.specs.declared.limits.TheConstants.{MAX_INPUT};
ghost use Rattle.job_answers.specs.Statuses.{status_of};
ghost use Rattle.job_answers.specs.StoryStatuses.{story_status_of};
ghost use Rattle.commands.specs.Serving.{IsVerdict, IsStoryDocument};
ghost use Rattle.nursery.specs.Statuses.{Tells, table_form};

use crate::answers::{bytes_of, conclude_run, conclude_story};
use crate::sending::put_answer;
use crate::stop::Stop;
use commands::{Form, report_document, story_document};
use job_answers::{Forward, NoGate, Question};
use std::thread::Threads;

// Returns the form in which a table is written: a JSON document if that is asked for, and otherwise a text.
pub(crate) fn table_form(json: bool) -> Form
    ensures { result ≡ table_form json }
{
    if json { Form::Json } else { Form::Text }
}

// Runs a job text over an input, writes the report as a JSON document, and returns the status.
pub(crate) fn run_as_json<R: Print + Eprint + Threads + Sync + AllocGlobal>(
    rt: &R,
    job: &str,
    question: &Question<'_>,
) -> Result<u8, Stop>
    requires { length question.now.input.now ≤ MAX_INPUT }
    ensures { IfOk result (Tells status_of (IsVerdict question.now.text.now question.now.input.now question.now.settings.limit)) }
{
    let answer = report_document(rt, rt.alloc(), question, &mut Forward, &NoGate)?;
    let verdict = put_answer(rt, answer)?;
    Ok(conclude_run(rt, job, question, verdict))
}

// Writes the story of a job text over an input as a JSON document, and returns the status.
pub(crate) fn explain_as_json<R: Print + Eprint + Threads + Sync + AllocGlobal>(
    rt: &R,
    job: &str,
    question: &Question<'_>,
    task: Option<&str>,
) -> Result<u8, Stop>
    requires { length question.now.input.now ≤ MAX_INPUT }
    ensures { IfOk result (Tells story_status_of (IsStoryDocument question.now.text.now question.now.input.now question.now.settings.limit
        (option_copied task.entry))) }
{
    let asked = bytes_of(task);
    let answer = story_document(rt, rt.alloc(), question, asked, &mut Forward, &NoGate)?;
    let verdict = put_answer(rt, answer)?;
    Ok(conclude_story(rt, job, question.text, task, verdict))
}
