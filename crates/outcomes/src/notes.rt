ghost use Rattle.std.specs.Prelude.{◌≡◌, ◌++◌, Some, true, IfOk, OnOk, codes, decimal};
ghost use Rattle.std.specs.Option.{option_map};
ghost use Rattle.exceptions.specs.Held.{exc_of};
ghost use Rattle.exceptions.specs.Texts.{end_text};
ghost use Rattle.outcomes.specs.JobOutcomes.{more_names, names_text, names_note, reached_note, lost_note, not_tried_text, job_outcome_text, differs};
ghost use Rattle.outcomes.specs.Views.{job_outcome_held};

use crate::job_outcome::JobOutcome;
use basics::push_number;
use exceptions::{Exc, Label, push_label, push_raised};
use job_reader::JobFault;
use std::alloc::{AllocError, Global};

/// Appends the outcome of a job up to the limit, and notes. `reached` says whether the fault was reached. The only error is that
/// memory runs out.
pub fn push_job_outcome(
    out: &mut Vec<u8>,
    limit: u64,
    reached: bool,
    job_outcome: &JobOutcome,
) -> Result<(), AllocError>
    ensures { OnOk result (out.new.items ≡ out.old.items ++ job_outcome_text limit reached (job_outcome_held job_outcome.now)) }
{
    match job_outcome {
        JobOutcome::Refused(fault) => push_not_tried(out, fault),
        JobOutcome::Stuck {
            sleeping,
            cut,
            lost,
        } => {
            out.extend_from_slice(b"stuck at ")?;
            push_number(out, limit)?;
            push_reached(out, reached)?;
            push_names_note(out, b"sleeping forever: ", sleeping.as_slice())?;
            push_names_note(out, b"cleanup cut: ", cut.as_slice())?;
            push_lost(out, *lost)
        }
        JobOutcome::Ended {
            end,
            exc,
            cancelled,
            cut,
            lost,
        } => {
            push_end(out, *end, exc)?;
            push_reached(out, reached)?;
            push_names_note(out, b"cancelled: ", cancelled.as_slice())?;
            push_names_note(out, b"cleanup cut: ", cut.as_slice())?;
            push_lost(out, *lost)
        }
    }
}

/// Returns whether the outcome of a job with a fault, as it is printed of a fault that is reached, is another text than its
/// outcome without the fault. `limit` is the last tick at which the job may end. The only error is that memory runs out.
pub fn differs(
    alloc: Global,
    limit: u64,
    before: &JobOutcome,
    after: &JobOutcome,
) -> Result<bool, AllocError>
    ensures { IfOk result (λ other. other ≡ differs limit (job_outcome_held before.now) (job_outcome_held after.now)) }
{
    let without = job_outcome_text(alloc, limit, before)?;
    let with = job_outcome_text(alloc, limit, after)?;
    Ok(with.as_slice() != without.as_slice())
}

// Returns the outcome of a job, as it is printed of a fault that is reached.
fn job_outcome_text(
    alloc: Global,
    limit: u64,
    job_outcome: &JobOutcome,
) -> Result<Vec<u8>, AllocError>
    ensures { IfOk result (λ text. text.items ≡ job_outcome_text limit true (job_outcome_held job_outcome.now)) }
{
    let mut text = Vec::new(alloc);
    push_job_outcome(&mut text, limit, true, job_outcome)?;
    Ok(text)
}

/// Appends that a text was not tried, and the refusal of that text: the number of its kind and its place. The only error is that
/// memory runs out.
pub fn push_not_tried(out: &mut Vec<u8>, fault: &JobFault) -> Result<(), AllocError>
    ensures { OnOk result (out.new.items ≡ out.old.items ++ not_tried_text fault.now) }
{
    out.extend_from_slice(b"not tried: J")?;
    push_number(out, fault.kind.number())?;
    out.extend_from_slice(b" at ")?;
    push_number(out, fault.at as u64)
}

// Appends the tick at which a job ended, and how it ended.
fn push_end(out: &mut Vec<u8>, end: u64, exc: &Option<Exc>) -> Result<(), AllocError>
    ensures { OnOk result (out.new.items ≡ out.old.items ++ (decimal end ++ codes " " ++ end_text (option_map exc_of exc.now))) }
{
    push_number(out, end)?;
    out.extend_from_slice(b" ")?;
    push_outcome(out, exc)
}

// Appends how a job ended: without an exception, or with one.
fn push_outcome(out: &mut Vec<u8>, exc: &Option<Exc>) -> Result<(), AllocError>
    ensures { OnOk result (out.new.items ≡ out.old.items ++ end_text (option_map exc_of exc.now)) }
{
    let Some(exc) = exc else {
        return out.extend_from_slice(b"done");
    };
    push_raised(out, exc)
}

// Appends the note that a fault was not reached.
fn push_reached(out: &mut Vec<u8>, reached: bool) -> Result<(), AllocError>
    ensures { OnOk result (out.new.items ≡ out.old.items ++ reached_note reached) }
{
    if reached {
        return Ok(());
    }
    out.extend_from_slice(b"; not reached")
}

// Appends the note that an exception was lost.
fn push_lost(out: &mut Vec<u8>, lost: bool) -> Result<(), AllocError>
    ensures { OnOk result (out.new.items ≡ out.old.items ++ lost_note lost) }
{
    if !lost {
        return Ok(());
    }
    out.extend_from_slice(b"; fault lost")
}

/// Appends a note that names some tasks, if there are any: a semicolon, a title, at most three names, and how many more there
/// are. The only error is that memory runs out.
pub fn push_names_note(out: &mut Vec<u8>, title: &[u8], labels: &[Label]) -> Result<(), AllocError>
    ensures { OnOk result (out.new.items ≡ out.old.items ++ names_note title.now labels.now) }
{
    if labels.is_empty() {
        return Ok(());
    }
    out.extend_from_slice(b"; ")?;
    out.extend_from_slice(title)?;
    push_names(out, labels)
}

// Appends at most three names, and how many more there are.
fn push_names(out: &mut Vec<u8>, labels: &[Label]) -> Result<(), AllocError>
    ensures { OnOk result (out.new.items ≡ out.old.items ++ names_text labels.now) }
{
    let Some((first, others)) = labels.split_first() else {
        return Ok(());
    };
    push_label(out, first)?;
    push_more_names(out, 2, others)
}

// Appends at most `most` further names, each after a comma, and how many are left.
fn push_more_names(out: &mut Vec<u8>, most: usize, labels: &[Label]) -> Result<(), AllocError>
    ensures { OnOk result (out.new.items ≡ out.old.items ++ more_names most labels.now) }
{
    let mut left = most;
    let mut rest = labels;
    'names: while let Some((label, others)) = rest.split_first() {
        if left == 0 {
            return push_left_over(out, rest.len());
        }
        out.extend_from_slice(b", ")?;
        push_label(out, label)?;
        left -= 1;
        rest = others;
    }
    Ok(())
}

// Appends how many names are left.
fn push_left_over(out: &mut Vec<u8>, count: usize) -> Result<(), AllocError>
    ensures { OnOk result (out.new.items ≡ out.old.items ++ (codes " and " ++ decimal count ++ codes " more")) }
{
    out.extend_from_slice(b" and ")?;
    push_number(out, count as u64)?;
    out.extend_from_slice(b" more")
}
