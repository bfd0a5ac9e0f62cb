ghost use Rattle.std.specs.Prelude.{◌≡◌, IfOk, map};
ghost use Rattle.task_table.specs.Records.{row_in};
ghost use Rattle.job_runner.specs.Runs.{name_of, rows_of};
ghost use Rattle.job_report.specs.Text.{report_text, last_tick};

use crate::rows::{push_rows, text_for};
use basics::push_number;
use job_runner::{Record, Run};
use std::alloc::{AllocError, Global};

/// Returns the text of a run's report: a line for the job, and for each task a line and one for each of its
/// entries. The only error is that memory runs out.
pub fn report(alloc: Global, run: &Run<'_>) -> Result<Vec<u8>, AllocError>
    ensures { IfOk result (λ text. text.items ≡ report_text (name_of run.now) (rows_of run.now)) }
{
    let mut out = text_for(alloc, run.records())?;
    out.extend_from_slice(b"job ")?;
    let name = run.name();
    out.extend_from_slice(name.bytes())?;
    out.extend_from_slice(b" ")?;
    push_number(&mut out, root_end(run.records()))?;
    out.extend_from_slice(b"\n")?;
    push_rows(&mut out, run.records())?;
    Ok(out)
}

// The tick at which the root ended.
fn root_end(records: &[Record<'_>]) -> u64
    ensures { result ≡ last_tick (map row_in records.now) }
{
    match records.split_first() {
        Some((root, _)) => root.to_tick,
        None => 0,
    }
}
