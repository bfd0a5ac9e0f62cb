ghost use Rattle.std.specs.Prelude.{◌≤◌, length, IfOk};
ghost use Rattle.job_meaning.specs.declared.limits.TheConstants.{MAX_INPUT};
ghost use Rattle.commands.specs.Outputs.{IsChart, IsFaults, IsOutput, IsRaces, IsReport, IsStory};

use crate::denying::plain_options;
use crate::outputs::Output;
use crate::{Form, chart, faults, races};
use job_answers::{Question, explain, report_answer};
use job_runner::{Forward, NoGate};
use outcomes::Deny;
use std::alloc::{AllocError, Global};
use std::thread::Threads;

/// Returns the bytes that a command writes for a job text over an input: the report, the story of all tasks, the chart as a text
/// of 80 columns, the outcome of the job with each fault, where a step that fails raises `Fault`, or the races. For a job text
/// that is refused, each is the refusal. The number of workers in the settings changes no byte. The caller must ensure that the
/// input has at most 16,777,216 bytes (`MAX_INPUT`). The only error is that memory runs out.
pub fn output_of<R: Threads + Sync>(
    rt: &R,
    alloc: Global,
    question: &Question<'_>,
    output: Output,
) -> Result<Vec<u8>, AllocError>
    requires { length question.now.input.now ≤ MAX_INPUT }
    ensures { IfOk result (λ bytes. IsOutput question.now.text.now question.now.input.now question.now.settings.limit output bytes.items) }
{
    match output {
        Output::Report => report_of(rt, alloc, question),
        Output::Story => story_of(rt, alloc, question),
        Output::Chart => chart_of(rt, alloc, question),
        Output::Faults => faults_of(rt, alloc, question),
        Output::Races => races_of(rt, alloc, question),
    }
}

// Returns the bytes that `run` writes.
fn report_of<R: Threads + Sync>(
    rt: &R,
    alloc: Global,
    question: &Question<'_>,
) -> Result<Vec<u8>, AllocError>
    requires { length question.now.input.now ≤ MAX_INPUT }
    ensures { IfOk result (λ bytes. IsReport question.now.text.now question.now.input.now question.now.settings.limit bytes.items) }
{
    let answer = report_answer(rt, alloc, question, &mut Forward, &NoGate)?;
    Ok(answer.bytes)
}

// Returns the bytes that `explain` writes of all tasks.
fn story_of<R: Threads + Sync>(
    rt: &R,
    alloc: Global,
    question: &Question<'_>,
) -> Result<Vec<u8>, AllocError>
    requires { length question.now.input.now ≤ MAX_INPUT }
    ensures { IfOk result (λ bytes. IsStory question.now.text.now question.now.input.now question.now.settings.limit bytes.items) }
{
    let answer = explain(rt, alloc, question, None, &mut Forward, &NoGate)?;
    Ok(answer.bytes)
}

// Returns the bytes that `chart` writes as a text of 80 columns.
fn chart_of<R: Threads + Sync>(
    rt: &R,
    alloc: Global,
    question: &Question<'_>,
) -> Result<Vec<u8>, AllocError>
    requires { length question.now.input.now ≤ MAX_INPUT }
    ensures { IfOk result (λ bytes. IsChart question.now.text.now question.now.input.now question.now.settings.limit bytes.items) }
{
    let form = crate::ChartForm::Text { width: 80 };
    let answer = chart(rt, alloc, question, form, &mut Forward, &NoGate)?;
    Ok(answer.bytes)
}

// Returns the bytes that `faults` writes if nothing is denied.
fn faults_of<R: Threads + Sync>(
    rt: &R,
    alloc: Global,
    question: &Question<'_>,
) -> Result<Vec<u8>, AllocError>
    requires { length question.now.input.now ≤ MAX_INPUT }
    ensures { IfOk result (λ bytes. IsFaults question.now.text.now question.now.input.now question.now.settings.limit bytes.items) }
{
    let deny = Deny {
        stuck: false,
        cut: false,
        lost: false,
    };
    let options = plain_options(alloc, deny)?;
    let answer = faults(rt, alloc, question, &options, Form::Text, &NoGate)?;
    Ok(answer.bytes)
}

// Returns the bytes that `races` writes if nothing is denied.
fn races_of<R: Threads + Sync>(
    rt: &R,
    alloc: Global,
    question: &Question<'_>,
) -> Result<Vec<u8>, AllocError>
    requires { length question.now.input.now ≤ MAX_INPUT }
    ensures { IfOk result (λ bytes. IsRaces question.now.text.now question.now.input.now question.now.settings.limit bytes.items) }
{
    let answer = races(rt, alloc, question, false, Form::Text, &NoGate)?;
    Ok(answer.bytes)
}
