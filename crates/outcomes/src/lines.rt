ghost use Rattle.std.specs.Prelude.{◌≡◌, ◌++◌, IfOk, OnOk, map};
ghost use Rattle.outcomes.specs.Table.{first_text, columns_text, line_text, printed, lines_text, more_lines_text, divided_text, untried_text, table_text, denied_text};
ghost use Rattle.outcomes.specs.Views.{job_outcome_held, line_held};

use crate::columns::{Widths, kind_of, place_of, step_of, widths_of};
use crate::counts::{Counts, push_counts};
use crate::deny::Deny;
use crate::job_outcome::JobOutcome;
use crate::line::Line;
use crate::notes::push_job_outcome;
use crate::options::Untried;
use crate::pieces::{push_left, push_right, push_spaces};
use std::alloc::{AllocError, Global};

/// Returns the text of the table: the outcome of the job without a fault (`first`), the outcome with each fault, and how many
/// faults there are of each kind. With `brief` it has only the lines whose outcome differs from that of the job without the
/// fault, but all are counted. `limit` is the last tick at which the job may end, and `untried` says which faults in single
/// copies and passes are not among `lines`. The only error is that memory runs out.
pub fn table(
    alloc: Global,
    limit: u64,
    brief: bool,
    first: &JobOutcome,
    lines: &[Line],
    untried: Untried,
) -> Result<Vec<u8>, AllocError>
    ensures { IfOk result (λ text. text.items ≡ table_text limit brief (job_outcome_held first.now) (map line_held lines.now) untried) }
{
    let widths = widths_of(alloc, lines)?;
    let mut out = Vec::new(alloc);
    push_first(&mut out, limit, widths, first)?;
    push_lines(alloc, &mut out, limit, widths, brief, lines)?;
    push_counts(&mut out, Counts::of(lines))?;
    push_untried(&mut out, untried)?;
    Ok(out)
}

// Appends which faults in single copies and passes are not among the lines.
fn push_untried(out: &mut Vec<u8>, untried: Untried) -> Result<(), AllocError>
    ensures { OnOk result (out.new.items ≡ out.old.items ++ untried_text untried) }
{
    push_more_lines(out, untried.more)?;
    push_divided(out, untried.divided)
}

// Appends that there are more faults in single copies and passes than lines, if there are.
fn push_more_lines(out: &mut Vec<u8>, more: bool) -> Result<(), AllocError>
    ensures { OnOk result (out.new.items ≡ out.old.items ++ more_lines_text more) }
{
    if !more {
        return Ok(());
    }
    out.extend_from_slice(b"only the first 1000 faults in single copies and passes were tried\n")
}

// Appends that there are copies in which no fault was tried, if there are.
fn push_divided(out: &mut Vec<u8>, divided: bool) -> Result<(), AllocError>
    ensures { OnOk result (out.new.items ≡ out.old.items ++ divided_text divided) }
{
    if !divided {
        return Ok(());
    }
    out.extend_from_slice(
        b"copies or passes that pace or need lines were not tried singly: each has its own part of the input\n",
    )
}

/// Returns the lines of the table whose outcome is denied, as they are in the table. The text is empty if there are none. The
/// only error is that memory runs out.
pub fn denied_text(
    alloc: Global,
    limit: u64,
    first: &JobOutcome,
    lines: &[Line],
    deny: Deny,
) -> Result<Vec<u8>, AllocError>
    ensures { IfOk result (λ text. text.items ≡ denied_text limit deny (job_outcome_held first.now) (map line_held lines.now)) }
{
    let widths = widths_of(alloc, lines)?;
    let mut out = Vec::new(alloc);
    if deny.denies_first(first) {
        push_first(&mut out, limit, widths, first)?;
    }
    'lines: for line in lines {
        if deny.denies(line) {
            push_line(alloc, &mut out, limit, widths, line)?;
        }
    }
    Ok(out)
}

// Appends the outcome of the job without a fault.
fn push_first(
    out: &mut Vec<u8>,
    limit: u64,
    widths: Widths,
    job_outcome: &JobOutcome,
) -> Result<(), AllocError>
    ensures { OnOk result (out.new.items ≡ out.old.items ++ first_text limit widths (job_outcome_held job_outcome.now)) }
{
    push_spaces(out, widths.place)?;
    push_spaces(out, widths.step)?;
    out.extend_from_slice(b"    ")?;
    push_left(out, widths.fault, b"as it is")?;
    out.extend_from_slice(b"  ")?;
    push_job_outcome(out, limit, true, job_outcome)?;
    out.extend_from_slice(b"\n")
}

// Appends the outcome of the job with each fault, or only with those that are printed in brief.
fn push_lines(
    alloc: Global,
    out: &mut Vec<u8>,
    limit: u64,
    widths: Widths,
    brief: bool,
    lines: &[Line],
) -> Result<(), AllocError>
    ensures { OnOk result (out.new.items ≡ out.old.items ++ lines_text limit widths (printed brief (map line_held lines.now))) }
{
    'lines: for line in lines {
        if !brief || line.differs {
            push_line(alloc, out, limit, widths, line)?;
        }
    }
    Ok(())
}

// Appends the outcome of the job with a fault.
fn push_line(
    alloc: Global,
    out: &mut Vec<u8>,
    limit: u64,
    widths: Widths,
    line: &Line,
) -> Result<(), AllocError>
    ensures { OnOk result (out.new.items ≡ out.old.items ++ line_text limit widths (line_held line.now)) }
{
    push_columns(alloc, out, widths, line)?;
    push_job_outcome(out, limit, line.reached, &line.job_outcome)?;
    out.extend_from_slice(b"\n")
}

// Appends the columns of a line before its outcome.
fn push_columns(
    alloc: Global,
    out: &mut Vec<u8>,
    widths: Widths,
    line: &Line,
) -> Result<(), AllocError>
    ensures { OnOk result (out.new.items ≡ out.old.items ++ columns_text widths (line_held line.now)) }
{
    push_right(out, widths.place, place_of(alloc, line)?.as_slice())?;
    out.extend_from_slice(b"  ")?;
    push_left(out, widths.step, step_of(alloc, line)?.as_slice())?;
    out.extend_from_slice(b"  ")?;
    push_left(out, widths.fault, kind_of(alloc, line)?.as_slice())?;
    out.extend_from_slice(b"  ")
}
