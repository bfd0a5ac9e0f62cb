ghost use Rattle.std.specs.Prelude.{◌≡◌, ◌++◌, Some, OnOk};
ghost use Rattle.std.specs.Option.{option_map};
ghost use Rattle.exceptions.specs.Held.{exc_of};
ghost use Rattle.outcomes.specs.Views.{job_outcome_held};
ghost use Rattle.outcomes.specs.Groups.{end_sans, head_text, notes_text};

use crate::exc::push_sans;
use crate::{JobOutcome, push_names_note};
use basics::push_number;
use exceptions::Exc;
use std::alloc::AllocError;

// Appends the outcome of a job up to the limit, without ticks.
pub(crate) fn push_head(
    out: &mut Vec<u8>,
    limit: u64,
    job_outcome: &JobOutcome,
) -> Result<(), AllocError>
    ensures { OnOk result (out.new.items ≡ out.old.items ++ head_text limit (job_outcome_held job_outcome.now)) }
{
    match job_outcome {
        JobOutcome::Refused(_) => out.extend_from_slice(b"refused"),
        JobOutcome::Stuck { .. } => {
            out.extend_from_slice(b"stuck at ")?;
            push_number(out, limit)
        }
        JobOutcome::Ended { exc, .. } => push_end(out, exc),
    }
}

// Appends how a job ended: without an exception, or with one.
fn push_end(out: &mut Vec<u8>, exc: &Option<Exc>) -> Result<(), AllocError>
    ensures { OnOk result (out.new.items ≡ out.old.items ++ end_sans (option_map exc_of exc.now)) }
{
    let Some(exc) = exc else {
        return out.extend_from_slice(b"done");
    };
    push_end_exc(out, exc)
}

// Appends the exception with which a job ended: a cancellation, or another one.
fn push_end_exc(out: &mut Vec<u8>, exc: &Exc) -> Result<(), AllocError>
    ensures { OnOk result (out.new.items ≡ out.old.items ++ end_sans (Some (exc_of exc.now))) }
{
    match exc {
        Exc::Cancelled => out.extend_from_slice(b"cancelled"),
        Exc::Raised { .. } | Exc::TooSlow { .. } | Exc::Group { .. } => {
            out.extend_from_slice(b"raised ")?;
            push_sans(out, exc)
        }
    }
}

// Appends the notes on the outcome of a job.
pub(crate) fn push_notes(out: &mut Vec<u8>, job_outcome: &JobOutcome) -> Result<(), AllocError>
    ensures { OnOk result (out.new.items ≡ out.old.items ++ notes_text (job_outcome_held job_outcome.now)) }
{
    match job_outcome {
        JobOutcome::Refused(_) => Ok(()),
        JobOutcome::Stuck { sleeping, cut, .. } => {
            push_names_note(out, b"sleeping forever: ", sleeping.as_slice())?;
            push_names_note(out, b"cleanup cut: ", cut.as_slice())?;
            Ok(())
        }
        JobOutcome::Ended { cancelled, cut, .. } => {
            push_names_note(out, b"cancelled: ", cancelled.as_slice())?;
            push_names_note(out, b"cleanup cut: ", cut.as_slice())?;
            Ok(())
        }
    }
}
