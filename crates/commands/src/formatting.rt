ghost use Rattle.std.specs.Prelude.{IfOk};
ghost use Rattle.commands.specs.Formats.{IsAnswer};

use crate::format_verdict::FormatVerdict;
use job_answers::refusal;
use job_layout::{FormatFault, format_text};
use job_report::Answer;
use std::alloc::{AllocError, Global};

/// Returns the formatted text of the job that a text spells, or the line of the text's refusal. If the formatted text is longer
/// than a job text may be, there are no bytes. The only error is that memory runs out.
pub fn format(alloc: Global, job_text: &[u8]) -> Result<Answer<FormatVerdict>, AllocError>
    ensures { IfOk result (λ answer. IsAnswer job_text.now answer.verdict answer.bytes.items) }
{
    match format_text(alloc, job_text) {
        Ok(bytes) => Ok(Answer {
            verdict: FormatVerdict::Formatted,
            bytes,
        }),
        Err(FormatFault::Refused(fault)) => {
            let bytes = refusal(alloc, fault)?;
            Ok(Answer {
                verdict: FormatVerdict::JobRefused(fault),
                bytes,
            })
        }
        Err(FormatFault::TooLong(bytes)) => Ok(Answer {
            verdict: FormatVerdict::TooLong(bytes),
            bytes: Vec::new(alloc),
        }),
        Err(FormatFault::NoMemory) => Err(AllocError),
    }
}
