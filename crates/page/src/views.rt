ghost use Rattle.std.specs.Prelude.{◌≡◌, ◌≤◌, length, map, IfOk};
ghost use Rattle.job_meaning.specs.declared.limits.TheConstants.{MAX_INPUT};
ghost use Rattle.page.specs.Answers.{AreViews, job_rows};
ghost use Rattle.page.specs.Views.{row_held};

use crate::rows::{Row, task_rows};
use chart::StoryIndex;
use commands::{ChartForm, chart};
use job_answers::{Verdict, explain, report_answer, story_of};
use job_reader::Job;
use job_report::Question;
use job_runner::{Forward, NoGate};
use std::alloc::{AllocError, Global};
use std::thread::Threads;

/// The width of the chart of a page, in columns of text.
const WIDTH: usize = 400;

// What one run of a job shows.
#[derive(Drop)]
pub(crate) struct Views {
    // How the job ends, compared with the limit.
    pub verdict: Verdict,
    // The report.
    pub report: Vec<u8>,
    // The story.
    pub story: Vec<u8>,
    // The chart, which is an SVG document.
    pub chart: Vec<u8>,
}

// Returns the report, the story and the chart of a job.
pub(crate) fn views_of<R: Threads + Sync>(
    rt: &R,
    alloc: Global,
    question: &Question<'_>,
) -> Result<Views, AllocError>
    requires { length question.now.input.now ≤ MAX_INPUT }
    ensures { IfOk result (λ v. AreViews question.now.text.now question.now.input.now question.now.settings.limit v.verdict
        v.report.items v.story.items v.chart.items) }
{
    let report = report_answer(rt, alloc, question, &mut Forward, &NoGate)?;
    let story = explain(rt, alloc, question, None, &mut Forward, &NoGate)?;
    let form = ChartForm::Svg { width: WIDTH };
    let chart = chart(rt, alloc, question, form, &mut Forward, &NoGate)?;
    Ok(Views {
        verdict: report.verdict,
        report: report.bytes,
        story: story.bytes,
        chart: chart.bytes,
    })
}

// Returns the rows of the tasks in the chart of a job.
pub(crate) fn rows_of<R: Threads + Sync>(
    rt: &R,
    alloc: Global,
    job: &Job,
    question: &Question<'_>,
) -> Result<Vec<Row>, AllocError>
    requires { length question.now.input.now ≤ MAX_INPUT }
    ensures { IfOk result (λ rows. map row_held rows.items ≡ job_rows question.now.settings.limit job.now question.now.input.now) }
{
    let story = story_of(rt, alloc, job, question, &mut Forward, &NoGate)?;
    let walked = story.walked(alloc)?;
    let index = StoryIndex::of(alloc, walked.as_slice())?;
    let bars = index.bars(alloc, story.clock, &story.table, story.until)?;
    task_rows(alloc, bars.as_slice())
}
