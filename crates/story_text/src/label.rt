ghost use Rattle.std.specs.Prelude.{◌≡◌, ◌++◌, [], ◌∷◌, OnOk, decimal, codes, replicate};
ghost use Rattle.job_story.specs.Sentences.{padded_text};
ghost use Rattle.exceptions.specs.Texts.{label_text};

use exceptions::{Label, push_label};
use std::alloc::AllocError;

// Appends a label, and spaces up to a width.
pub(crate) fn push_padded(out: &mut Vec<u8>, width: usize, label: &Label) -> Result<(), AllocError>
    ensures { OnOk result (out.new.items ≡ out.old.items ++ padded_text width (label_text label.now)) }
{
    let start = out.len();
    push_label(out, label)?;
    let len = out.len() - start;
    push_spaces(out, width.saturating_sub(len))
}

// Appends this many spaces.
fn push_spaces(out: &mut Vec<u8>, count: usize) -> Result<(), AllocError>
    ensures { OnOk result (out.new.items ≡ out.old.items ++ replicate count 32) }
{
    'spaces: for _i in 0..count {
        out.push(b' ')?;
    }
    Ok(())
}
