ghost use Rattle.std.specs.Prelude.{◌≡◌, IfOk};
ghost use Rattle.commands.specs.Formats.{IsCheck, comparison};

use crate::difference::difference;
use crate::format_verdict::FormatCheck;
use job_layout::{FormatFault, format_text};
use std::alloc::{AllocError, Global};

/// Returns whether a job text is its own formatted text, and otherwise the first place at which it differs. The only error is
/// that memory runs out.
#[tactic(auto, using(crate::proofs::Checked::is_compared))]
pub fn check_format(alloc: Global, job_text: &[u8]) -> Result<FormatCheck, AllocError>
    ensures { IfOk result (IsCheck job_text.now) }
{
    match format_text(alloc, job_text) {
        Ok(bytes) => Ok(comparison(job_text, bytes.as_slice())),
        Err(FormatFault::Refused(fault)) => Ok(FormatCheck::JobRefused(fault)),
        Err(FormatFault::TooLong(bytes)) => Ok(FormatCheck::TooLong(bytes)),
        Err(FormatFault::NoMemory) => Err(AllocError),
    }
}

// Returns the result for a text, given its formatted text.
fn comparison(text: &[u8], formatted: &[u8]) -> FormatCheck
    ensures { result ≡ comparison text.now formatted.now }
{
    match difference(text, formatted) {
        None => FormatCheck::Same,
        Some(place) => FormatCheck::Differs(place),
    }
}
