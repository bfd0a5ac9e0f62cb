ghost use Rattle.std.specs.Prelude.{IfOk};
ghost use Rattle.refusal_text.specs.Hinting.{IsSizeHint};

use crate::hinting::Hint;
use crate::lexed_text::LexedText;
use job_reader::size_of;
use job_syntax::job_at;
use std::alloc::{AllocError, Global};

// Returns the number of step instances of the job of a text, if its tokens spell one.
pub(crate) fn size_hint(alloc: Global, text: &[u8]) -> Result<Option<Hint>, AllocError>
    ensures { IfOk result (IsSizeHint text.now) }
{
    let lexed = LexedText::new(alloc, text)?;
    let Some(job) = job_at(alloc, lexed.tokens.as_slice())? else {
        return Ok(None);
    };
    let (_name, steps) = job;
    Ok(Some(Hint::Size(size_of(steps.as_slice()))))
}
