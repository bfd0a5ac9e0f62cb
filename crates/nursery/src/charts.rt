ghost use Rattle.std.specs.Prelude.{◌≤◌, length, IfOk};
ghost use Rattle.job_meaning.specs.declared.limits.TheConstants.{MAX_INPUT};
ghost use Rattle.job_answers.specs.Statuses.{status_of};
ghost use Rattle.commands.specs.Charts.{IsVerdict};
ghost use Rattle.nursery.specs.Statuses.{Tells};

use crate::answers::{conclude_run, word_of};
use crate::sending::put_answer;
use crate::sources::read_both;
use crate::stop::Stop;
use cli::{ChartArgs, LEAST_WIDTH, MAX_WIDTH};
use commands::{ChartForm, chart};
use job_answers::{Forward, NoGate, Question};
use std::env;
use std::rt::{Env, Files};
use std::thread::Threads;

/// The width of a text chart if none is requested and the terminal does not report its own.
const USUAL_WIDTH: usize = 80;

/// The width of an SVG document if none is requested, in columns of text.
const USUAL_SVG_WIDTH: usize = 400;

// Draws the run of a job file over an input file, or over no input, and returns the status.
pub(crate) fn chart_job<R: Files + Env + Input + Print + Eprint + Threads + Sync + AllocGlobal>(
    rt: &R,
    args: &ChartArgs,
) -> Result<u8, Stop> {
    let job = args.job.as_str();
    let given = read_both(rt, job, word_of(&args.input))?;
    let form = form_of(rt, args.width, args.svg);
    chart_text(rt, job, &given.question(args.settings), form)
}

// Returns the form of a chart, with the requested width, or else the usual one.
fn form_of<R: Env + AllocGlobal>(rt: &R, width: Option<usize>, svg: bool) -> ChartForm {
    if svg {
        return ChartForm::Svg {
            width: width.unwrap_or(USUAL_SVG_WIDTH),
        };
    }
    match width {
        Some(width) => ChartForm::Text { width },
        None => ChartForm::Text {
            width: terminal_width(rt),
        },
    }
}

// Returns the terminal's width in columns, from `COLUMNS` in the environment.
fn terminal_width<R: Env + AllocGlobal>(rt: &R) -> usize {
    let Ok(columns) = env::var(rt, "COLUMNS") else {
        return USUAL_WIDTH;
    };
    match columns.as_str().parse::<usize>() {
        Ok(width) => width.clamp(LEAST_WIDTH, MAX_WIDTH),
        Err(_) => USUAL_WIDTH,
    }
}

// Draws the run of a job text over an input, and returns the status.
fn chart_text<R: Print + Eprint + Threads + Sync + AllocGlobal>(
    rt: &R,
    job: &str,
    question: &Question<'_>,
    form: ChartForm,
) -> Result<u8, Stop>
    requires { length question.now.input.now ≤ MAX_INPUT }
    ensures { IfOk result (Tells status_of (IsVerdict form question.now.text.now question.now.input.now question.now.settings.limit)) }
{
    let answer = chart(rt, rt.alloc(), question, form, &mut Forward, &NoGate)?;
    let verdict = put_answer(rt, answer)?;
    Ok(conclude_run(rt, job, question, verdict))
}
