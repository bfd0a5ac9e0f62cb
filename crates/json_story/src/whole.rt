ghost use Rattle.std.specs.Prelude.{◌≡◌, IfOk};
ghost use Rattle.job_runner.specs.Runs.{name_of, rows_of};
ghost use Rattle.json_story.specs.Values.{document, report_json};

use crate::pieces::{push_first_member, push_member};
use crate::rows::push_tasks;
use crate::text::text_value;
use job_runner::Run;
use serde_json::Value;
use std::alloc::{AllocError, Global};

/// Returns the report of a run as one JSON document, in compact form and with a newline: the job's name, the tick at which its
/// root ended, and an object for each task in the order of the report. The text is made piece by piece, so beside the document
/// itself only the values of one entry are in memory. Returns `AllocError` if memory runs out.
pub fn report_json(alloc: Global, run: &Run<'_>) -> Result<Vec<u8>, AllocError>
    ensures { IfOk result (λ text. text.items ≡ document (report_json (name_of run.now) (rows_of run.now))) }
{
    let mut out = Vec::new(alloc);
    push_first_member(alloc, &mut out, "end", &Value::from(run.end()))?;
    let name = run.name();
    push_member(alloc, &mut out, "job", &text_value(alloc, name.bytes())?)?;
    push_tasks(alloc, &mut out, run.records())?;
    out.extend_from_slice(b"}\n")?;
    Ok(out)
}
