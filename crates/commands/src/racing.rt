ghost use Rattle.std.specs.Prelude.{◌≡◌, ◌≤◌, [], length, if◌then◌else◌, IfOk, map};
ghost use Rattle.job_meaning.specs.declared.limits.TheConstants.{MAX_INPUT};
ghost use Rattle.race_text.specs.Table.{denied_text};
ghost use Rattle.race_text.specs.LineViews.{line_held};
ghost use Rattle.commands.specs.Races.{IsTableOf, IsVerdict, table_in};

use crate::form::Form;
use crate::refusing::{limit_in, refusal_in};
use crate::verdict::RacesVerdict;
use job_answers::Gate;
use job_report::{Answer, Question};
use json_tables::races_json;
use race_text::{Line, race_denied, race_table};
use std::alloc::{AllocError, Global};
use std::thread::Threads;
use trials::{RaceAnswer, RaceLines, race_lines};

/// Returns how the outcome of a job over an input changes if a single place of its text takes a hair more or less time. First
/// the text is put into finer ticks and compared with the original text. Then each `sleep`, `after` and `at` is moved by a hair
/// in both directions (a 0 only later), and each `checkpoint`, `pace` and `start` is moved later; each is compared with the
/// text in finer ticks. Outcomes, lines and exits are compared, but not ticks; lines without a difference are left out. Then
/// come the copies of one `start .. over` that meet, and the counts. If the job does not end by the limit, the bytes are the
/// limit. If the job text is refused, they are its refusal. If a number of ticks is too large to be made finer, there are none.
/// The caller must ensure that the input has at most 16,777,216 bytes (`MAX_INPUT`).
///
/// With `deny`, the verdict has the lines that are races. The number of workers in the settings is the number of threads that run
/// the hairs. The gate is called before and after each hair, with the place of the hair among them, by the thread that runs it.
/// Neither changes a byte. The only error is that memory runs out.
pub fn races<R: Threads + Sync, G: Gate + Sync>(
    rt: &R,
    alloc: Global,
    question: &Question<'_>,
    deny: bool,
    form: Form,
    gate: &G,
) -> Result<Answer<RacesVerdict>, AllocError>
    requires { length question.now.input.now ≤ MAX_INPUT }

    // The bytes are the table of all hairs, or the refusal of the text, or the limit, or there are none.
    ensures { IfOk result (λ answer. IsVerdict form question.now.text.now question.now.input.now question.now.settings.limit deny
        answer.verdict answer.bytes.items) }
{
    let (verdict, bytes) = verdict_and_bytes(rt, alloc, question, deny, form, gate)?;
    Ok(Answer { verdict, bytes })
}

// Returns the verdict and all its bytes.
fn verdict_and_bytes<R: Threads + Sync, G: Gate + Sync>(
    rt: &R,
    alloc: Global,
    question: &Question<'_>,
    deny: bool,
    form: Form,
    gate: &G,
) -> Result<(RacesVerdict, Vec<u8>), AllocError>
    requires { length question.now.input.now ≤ MAX_INPUT }
    ensures { IfOk result (λ r. IsVerdict form question.now.text.now question.now.input.now question.now.settings.limit deny r.0 r.1.items) }
{
    match race_lines(rt, alloc, question, gate) {
        Ok(RaceAnswer::Lines(found)) => {
            let (denied, bytes) = table_and_denied(alloc, deny, form, &found)?;
            Ok((RacesVerdict::Lines { denied }, bytes))
        }
        Ok(RaceAnswer::Limit) => {
            let bytes = limit_in(alloc, form, question.settings.limit())?;
            Ok((RacesVerdict::Limit, bytes))
        }
        Ok(RaceAnswer::NoFinerTicks) => Ok((RacesVerdict::NoFinerTicks, Vec::new(alloc))),
        Err(fault) => {
            let bytes = refusal_in(alloc, form, question.text, fault)?;
            Ok((RacesVerdict::JobRefused(fault), bytes))
        }
    }
}

// Returns the lines that are denied, and the bytes of the table.
#[tactic(auto, using(crate::proofs::Tables::of_race_lines))]
fn table_and_denied(
    alloc: Global,
    deny: bool,
    form: Form,
    found: &RaceLines,
) -> Result<(Vec<u8>, Vec<u8>), AllocError>
    ensures { IfOk result (λ r. IsTableOf form deny found.now.hairs (map line_held found.now.lines.items) r.0.items r.1.items) }
{
    let bytes = table_in(alloc, form, found.hairs, found.lines.as_slice())?;
    let denied = denied_if(alloc, deny, found.lines.as_slice())?;
    Ok((denied, bytes))
}

// Returns the bytes of the table.
fn table_in(alloc: Global, form: Form, hairs: usize, lines: &[Line]) -> Result<Vec<u8>, AllocError>
    ensures { IfOk result (λ bytes. bytes.items ≡ table_in form hairs (map line_held lines.now)) }
{
    match form {
        Form::Text => race_table(alloc, hairs, lines),
        Form::Json => races_json(alloc, hairs, lines),
    }
}

// Returns the lines that are races, as they are in the text table, if `deny` is true; otherwise returns no bytes.
fn denied_if(alloc: Global, deny: bool, lines: &[Line]) -> Result<Vec<u8>, AllocError>
    ensures { IfOk result (λ denied. denied.items ≡ (if deny then denied_text (map line_held lines.now) else [])) }
{
    if deny {
        race_denied(alloc, lines)
    } else {
        Ok(Vec::new(alloc))
    }
}
