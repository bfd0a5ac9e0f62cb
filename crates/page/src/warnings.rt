ghost use Rattle.std.specs.Prelude.{◌≡◌, ◌++◌, ◌∷◌, [], map, IfOk, OnOk};
ghost use Rattle.page.specs.Answers.{AreWarned, warned_of};
ghost use Rattle.page.specs.Views.{warned_held};

use crate::job::Warned;
use basics::line_of;
use job_lint::{Warning, lints, sentence};
use std::alloc::{AllocError, Global};

// Returns the warnings about a job text that was read, so that only memory can be missing.
pub(crate) fn warnings_of(alloc: Global, text: &[u8]) -> Result<Vec<Warned>, AllocError>
    ensures { IfOk result (λ warned. AreWarned text.now (map warned_held warned.items)) }
{
    let Ok(warnings) = lints(alloc, text) else {
        return Err(AllocError);
    };
    warned_lines(alloc, text, warnings.as_slice())
}

// Returns warnings with the lines that they are about.
fn warned_lines(alloc: Global, text: &[u8], warnings: &[Warning]) -> Result<Vec<Warned>, AllocError>
    ensures { IfOk result (λ warned. map warned_held warned.items ≡ map (warned_of text.now) warnings.now) }
{
    let mut warned = Vec::new(alloc);
    'warnings: for warning in warnings {
        push_warned(alloc, &mut warned, text, warning)?;
    }
    Ok(warned)
}

// Appends a warning, with the line that it is about.
fn push_warned(
    alloc: Global,
    warned: &mut Vec<Warned>,
    text: &[u8],
    warning: &Warning,
) -> Result<(), AllocError>
    ensures { OnOk result (map warned_held warned.new.items ≡ map warned_held warned.old.items ++ warned_of text.now warning.now ∷ []) }
{
    let line = line_of(text, warning.at);
    let sentence = sentence(alloc, warning)?;
    warned.push(Warned { line, sentence })?;
    Ok(())
}
