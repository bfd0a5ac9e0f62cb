ghost use Rattle.std.specs.Prelude.{◌≤◌, ℕ, List, length, IfOk};
ghost use Rattle.job_meaning.specs.declared.limits.TheConstants.{MAX_INPUT};
ghost use Rattle.job_reader.specs.Refusals.{Spells};
ghost use Rattle.page.specs.Answers.{IsShownText, ArePlaces, IsPage, IsVerdict};

use crate::pages::{Shown, page_text};
use crate::places::{Place, places_in};
use crate::tables::tables_of;
use crate::views::{rows_of, views_of};
use crate::warnings::warnings_of;
use commands::{FormatVerdict, format};
use job_answers::Verdict;
use job_reader::{Job, read_job, spelled_tokens};
use job_report::{Answer, Question};
use job_runner::Gate;
use std::alloc::{AllocError, Global};
use std::thread::Threads;

/// Returns a page about a job over an input: its formatted text with the warnings about it, how it ends, its chart, its story,
/// its faults and its races, as the other commands show them, and its report. Lines of the tables and sentences of the story are
/// links to lines of the job, and the tasks in the story are links to their rows in the chart. If the job text is refused, the
/// bytes are the refusal. The verdict is that of `serve` of `job_answers`.
///
/// `made` says how the page was made. The number of workers and the gate, which is called as by `faults` and `races`, change no
/// byte. The caller must ensure that the input has at most 16,777,216 bytes (`MAX_INPUT`). The only error is that memory runs
/// out.
pub fn page<R: Threads + Sync, G: Gate + Sync>(
    rt: &R,
    alloc: Global,
    question: &Question<'_>,
    made: &[u8],
    gate: &G,
) -> Result<Answer<Verdict>, AllocError>
    requires { length question.now.input.now ≤ MAX_INPUT }

    // The bytes are a page about the job, or the refusal that the meaning names.
    ensures { IfOk result (λ answer. IsVerdict question.now.text.now question.now.input.now question.now.settings.limit made.now
        answer.verdict answer.bytes.items) }
{
    let Answer { verdict, bytes } = format(alloc, question.text)?;
    match verdict {
        FormatVerdict::Formatted => {
            page_of_text(rt, alloc, question, bytes.as_slice(), made, gate)
        }
        FormatVerdict::JobRefused(fault) => Ok(Answer {
            verdict: Verdict::JobRefused(fault),
            bytes,
        }),
        FormatVerdict::TooLong(_) => page_of_text(rt, alloc, question, question.text, made, gate),
    }
}

// Returns a page about a job that shows this text of it. The text was read, so that only memory can be missing.
fn page_of_text<R: Threads + Sync, G: Gate + Sync>(
    rt: &R,
    alloc: Global,
    question: &Question<'_>,
    text: &[u8],
    made: &[u8],
    gate: &G,
) -> Result<Answer<Verdict>, AllocError>
    requires short { length question.now.input.now ≤ MAX_INPUT }
    requires shown { IsShownText question.now.text.now text.now }
    ensures { IfOk result (λ answer. IsVerdict question.now.text.now question.now.input.now question.now.settings.limit made.now
        answer.verdict answer.bytes.items) }
{
    let Ok(job) = read_job(alloc, text) else {
        return Err(AllocError);
    };
    let shown = Question {
        text,
        input: question.input,
        settings: question.settings,
    };
    page_of_job(rt, alloc, &job, &shown, made, gate)
}

// Returns a page about a job as a text spells it.
fn page_of_job<R: Threads + Sync, G: Gate + Sync>(
    rt: &R,
    alloc: Global,
    job: &Job,
    question: &Question<'_>,
    made: &[u8],
    gate: &G,
) -> Result<Answer<Verdict>, AllocError>
    requires short { length question.now.input.now ≤ MAX_INPUT }
    requires spelled { Spells question.now.text.now job.now }
    ensures { IfOk result (λ answer. (text : List ℕ) → IsShownText text question.now.text.now → IsVerdict text question.now.input.now
        question.now.settings.limit made.now answer.verdict answer.bytes.items) }
{
    let name = job.name();
    let views = views_of(rt, alloc, question)?;
    let tables = tables_of(rt, alloc, name, question, gate)?;
    let places = job_places(alloc, question.text, job)?;
    let warned = warnings_of(alloc, question.text)?;
    let rows = rows_of(rt, alloc, job, question)?;
    let shown = Shown {
        name: name.bytes(),
        outcome: tables.outcome.as_slice(),
        job: question.text,
        warned: warned.as_slice(),
        places: places.as_slice(),
        chart: views.chart.as_slice(),
        rows: rows.as_slice(),
        story: views.story.as_slice(),
        changing: tables.changing.as_slice(),
        faults: tables.faults.as_slice(),
        races: tables.races.as_slice(),
        report: views.report.as_slice(),
        made,
    };
    let bytes = page_text(alloc, &shown)?;
    Ok(Answer {
        verdict: views.verdict,
        bytes,
    })
}

// Returns the names that a job gives in a text that spells it, with their lines.
fn job_places(alloc: Global, text: &[u8], job: &Job) -> Result<Vec<Place>, AllocError>
    requires { Spells text.now job.now }
    ensures { IfOk result (λ places. ArePlaces text.now places.items) }
{
    let tokens = spelled_tokens(alloc, text, job)?;
    places_in(alloc, text, tokens.as_slice())
}
