ghost use Rattle.std.specs.Prelude.{◌≡◌, ◌++◌, IfOk, OnOk};
ghost use Rattle.task_table.specs.Records.{ending_in};
ghost use Rattle.race_text.specs.Same.{outcome_text};

use outcomes::push_sans;
use std::alloc::{AllocError, Global};
use task_table::Outcome;

/// Appends how a task ended, without the ticks in exceptions: `done`, `cancelled`, or `raised` and the exception. The only error
/// is that memory runs out.
pub fn push_outcome(out: &mut Vec<u8>, outcome: &Outcome) -> Result<(), AllocError>
    ensures { OnOk result (out.new.items ≡ out.old.items ++ outcome_text (ending_in outcome.now)) }
{
    match outcome {
        Outcome::Done => out.extend_from_slice(b"done"),
        Outcome::Cancelled => out.extend_from_slice(b"cancelled"),
        Outcome::Raised(exc) => {
            out.extend_from_slice(b"raised ")?;
            push_sans(out, exc)
        }
    }
}

// Returns how a task ended, as a text.
pub(crate) fn outcome_of(alloc: Global, outcome: &Outcome) -> Result<Vec<u8>, AllocError>
    ensures { IfOk result (λ text. text.items ≡ outcome_text (ending_in outcome.now)) }
{
    let mut text = Vec::new(alloc);
    push_outcome(&mut text, outcome)?;
    Ok(text)
}
