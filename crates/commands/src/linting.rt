ghost use Rattle.std.specs.Prelude.{◌≡◌, ◌<◌, [], length, IfOk};
ghost use Rattle.job_lint.specs.Linted.{AreWarnings};
ghost use Rattle.commands.specs.Lints.{IsVerdict};

use crate::refusal;
use crate::verdict::LintsVerdict;
use job_lint::{Warning, lints};
use job_report::Answer;
use json_tables::lints_json as lints_document;
use std::alloc::{AllocError, Global};

/// Returns one JSON document with the probable mistakes in a job text, in the order of the keywords that they are about, and how
/// many there are. If the job text is refused, it is the JSON document of the refusal. The only error is that memory runs out.
pub fn lints_json(alloc: Global, job_text: &[u8]) -> Result<Answer<LintsVerdict>, AllocError>
    ensures { IfOk result (λ answer. IsVerdict job_text.now answer.verdict answer.bytes.items) }
{
    match lints(alloc, job_text) {
        Ok(warnings) => {
            let (verdict, bytes) = answer_for_warnings(alloc, job_text, warnings.as_slice())?;
            Ok(Answer { verdict, bytes })
        }
        Err(fault) => {
            let bytes = refusal(alloc, job_text, fault)?;
            Ok(Answer {
                verdict: LintsVerdict::JobRefused(fault),
                bytes,
            })
        }
    }
}

// Returns the verdict on a text with these warnings, and all its bytes.
#[tactic(auto, using(crate::proofs::Tables::of_none, crate::proofs::Tables::of_some))]
fn answer_for_warnings(
    alloc: Global,
    job_text: &[u8],
    warnings: &[Warning],
) -> Result<(LintsVerdict, Vec<u8>), AllocError>
    requires { AreWarnings job_text.now warnings.now }
    ensures { IfOk result (λ r. IsVerdict job_text.now r.0 r.1.items) }
{
    let bytes = lints_document(alloc, job_text, warnings)?;
    if warnings.is_empty() {
        Ok((LintsVerdict::Clean, bytes))
    } else {
        Ok((LintsVerdict::Warned, bytes))
    }
}
