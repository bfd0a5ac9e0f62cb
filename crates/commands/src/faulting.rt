ghost use Rattle.std.specs.Prelude.{◌≡◌, ◌≤◌, length, map, IfOk};
ghost use Rattle.job_meaning.specs.declared.limits.TheConstants.{MAX_INPUT};
ghost use Rattle.outcomes.specs.Views.{job_outcome_held, line_held, options_held};
ghost use Rattle.commands.specs.Faults.{IsTableOf, IsVerdict, table_in};

use crate::form::Form;
use crate::refusing::refusal_in;
use crate::verdict::FaultsVerdict;
use job_answers::Gate;
use job_report::{Answer, Question};
use json_tables::faults_json;
use outcomes::{Options, denied_text, table};
use std::alloc::{AllocError, Global};
use std::thread::Threads;
use trials::{FaultLines, fault_lines};

/// Returns the outcome of a job over an input: without a fault, and with each fault of each of its waiting steps, one line for
/// each, in the order of the places of the steps; and then how many faults there are of each kind. A fault is a change of the
/// job text (`job_edits`). Its line says what the changed text does by the meaning of the job: the tick at which the job ends
/// and how, or that it does not end by the limit, and notes. `options` say which exceptions steps raise, whether there are lines
/// for single copies and passes too, which lines are there, and which outcomes are denied. If the job text is refused, the bytes
/// are its refusal. The caller must ensure that the input has at most 16,777,216 bytes (`MAX_INPUT`).
///
/// The number of workers in the settings is the number of threads that run the faults. The gate is called before and after each
/// fault, with the place of the fault among the lines, by the thread that runs it. Neither changes a byte. The only error is that
/// memory runs out.
#[tactic(auto, using(crate::proofs::Tables::of_faults))]
pub fn faults<R: Threads + Sync, G: Gate + Sync>(
    rt: &R,
    alloc: Global,
    question: &Question<'_>,
    options: &Options,
    form: Form,
    gate: &G,
) -> Result<Answer<FaultsVerdict>, AllocError>
    requires { length question.now.input.now ≤ MAX_INPUT }

    // The bytes are the table of all faults, or the refusal of the text.
    ensures { IfOk result (λ answer. IsVerdict form question.now.text.now question.now.input.now question.now.settings.limit
        (options_held options.now) answer.verdict answer.bytes.items) }
{
    let (names, each) = (options.names.as_slice(), options.each);
    match fault_lines(rt, alloc, question, names, each, gate) {
        Ok(found) => {
            let limit = question.settings.limit();
            let (denied, bytes) = table_and_denied(alloc, limit, options, form, &found)?;
            Ok(Answer {
                verdict: FaultsVerdict::Lines { denied },
                bytes,
            })
        }
        Err(fault) => {
            let bytes = refusal_in(alloc, form, question.text, fault)?;
            Ok(Answer {
                verdict: FaultsVerdict::JobRefused(fault),
                bytes,
            })
        }
    }
}

// Returns the lines that are denied, and the bytes of the table.
#[tactic(auto, using(crate::proofs::Tables::of_fault_lines))]
fn table_and_denied(
    alloc: Global,
    limit: u64,
    options: &Options,
    form: Form,
    found: &FaultLines,
) -> Result<(Vec<u8>, Vec<u8>), AllocError>
    ensures { IfOk result (λ r. IsTableOf form limit (options_held options.now) (job_outcome_held found.now.first) (map line_held found.now.lines.items)
        found.now.untried r.0.items r.1.items) }
{
    let bytes = table_in(alloc, form, limit, options.brief, found)?;
    let denied = denied_text(
        alloc,
        limit,
        &found.first,
        found.lines.as_slice(),
        options.deny,
    )?;
    Ok((denied, bytes))
}

// Returns the bytes of the table.
fn table_in(
    alloc: Global,
    form: Form,
    limit: u64,
    brief: bool,
    found: &FaultLines,
) -> Result<Vec<u8>, AllocError>
    ensures { IfOk result (λ bytes. bytes.items
        ≡ table_in form limit brief (job_outcome_held found.now.first) (map line_held found.now.lines.items) found.now.untried) }
{
    let (first, lines, untried) = (&found.first, found.lines.as_slice(), found.untried);
    match form {
        Form::Text => table(alloc, limit, brief, first, lines, untried),
        Form::Json => faults_json(alloc, limit, brief, first, lines, untried),
    }
}
