ghost use Rattle.std.specs.Prelude.{◌≡◌, ◌≢◌, ◌++◌, IfOk, OnOk, codes, decimal, string_bytes};
ghost use Rattle.serde_json.specs.View.{view};
ghost use Rattle.job_reader.specs.declared.fault.JobKind.TheVariants as kinds;
ghost use Rattle.json_story.specs.Values.{document};
ghost use Rattle.commands.specs.Answers.{refusal_json, limit_json};

use basics::{column_of, line_of, push_str_number};
use job_reader::{JobFault, JobKind};
use json_story::document;
use serde_json::{Value, json};
use std::alloc::{AllocError, Global};

/// Returns the refusal of a job text as one JSON document, with its line and column. It is an error if memory runs out, or if
/// the fault itself is `NoMemory`, which is not a refusal.
pub fn refusal(alloc: Global, job_text: &[u8], fault: JobFault) -> Result<Vec<u8>, AllocError>
    ensures bytes { IfOk result (λ bytes. bytes.items ≡ document (refusal_json job_text.now fault)) }
    ensures kind { OnOk result (fault.kind ≢ kinds.NoMemory) }
{
    if matches!(fault.kind, JobKind::NoMemory) {
        return Err(AllocError);
    }
    let value = refusal_value(alloc, job_text, fault)?;
    document(alloc, &value)
}

// Returns the same as a JSON object.
fn refusal_value(alloc: Global, job_text: &[u8], fault: JobFault) -> Result<Value, AllocError>
    ensures { IfOk result (λ value. view value ≡ refusal_json job_text.now fault) }
{
    let code = kind_code(alloc, fault.kind.number())?;
    json!(in alloc; {
        "refused": code,
        "name": fault.kind.name(),
        "at": fault.at,
        "line": line_of(job_text, fault.at),
        "column": column_of(job_text, fault.at)
    })
}

// Returns `J` and the number of a kind.
fn kind_code(alloc: Global, number: u64) -> Result<String, AllocError>
    ensures { IfOk result (λ text. string_bytes text ≡ codes "J" ++ decimal number) }
{
    let mut text = String::from_str(alloc, "J")?;
    push_str_number(&mut text, number)?;
    Ok(text)
}

/// Returns the limit in ticks by which a job does not end, as one JSON document. The only error is that memory runs out.
pub fn past_limit(alloc: Global, limit: u64) -> Result<Vec<u8>, AllocError>
    ensures { IfOk result (λ bytes. bytes.items ≡ document (limit_json limit)) }
{
    let value = limit_value(alloc, limit)?;
    document(alloc, &value)
}

// Returns the same as a JSON object.
fn limit_value(alloc: Global, limit: u64) -> Result<Value, AllocError>
    ensures { IfOk result (λ value. view value ≡ limit_json limit) }
{
    json!(in alloc; {"limit": limit})
}
