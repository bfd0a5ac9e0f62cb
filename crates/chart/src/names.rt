ghost use Rattle.std.specs.Prelude.{◌≡◌, ◌++◌, Some, OnOk, codes, if◌then◌else◌};
ghost use Rattle.exceptions.specs.Held.{exc_of};
ghost use Rattle.block_exits.specs.Held.{kind_of};
ghost use Rattle.job_story.specs.Held.{unboxed_exc, what_of};
ghost use Rattle.job_story.specs.Sentences.{kind_text};
ghost use Rattle.exceptions.specs.Texts.{label_text, end_text};
ghost use Rattle.chart.specs.HeldBars.{bar_of};
ghost use Rattle.chart.specs.Text.{name_by, name_of, ended_text, open_text, outcome_of};

use crate::Bar;
use exceptions::{Exc, Label, push_label, push_raised};
use job_story::{Happening, Kind, What};
use std::alloc::AllocError;

/// Appends the name of a row: the label of a task, or, indented, the word `scope` or `nursery` and its label. Returns
/// `AllocError` if memory runs out.
pub fn push_name(out: &mut Vec<u8>, bar: &Bar<'_, '_>) -> Result<(), AllocError>
    ensures { OnOk result (out.new.items ≡ out.old.items ++ name_of (bar_of bar.now)) }
{
    match &bar.first.what {
        What::Starts { .. } => push_label(out, &bar.first.task),
        What::Happens(Happening::Enters { kind, label, .. }) => push_block_name(out, *kind, label),
        _ => Ok(()),
    }
}

// Appends the name of the row of a scope or nursery.
fn push_block_name(out: &mut Vec<u8>, kind: Kind, label: &Label) -> Result<(), AllocError>
    ensures { OnOk result (out.new.items ≡ out.old.items ++ (codes "  " ++ kind_text (kind_of kind) ++ label_text label.now)) }
{
    match kind {
        Kind::Scope { .. } => out.extend_from_slice(b"  scope ")?,
        Kind::Nursery => out.extend_from_slice(b"  nursery ")?,
    }
    push_label(out, label)
}

/// Appends the outcome of a bar: how a task ended, whether a scope or nursery caught a cancellation, or that the bar has no end.
/// Returns `AllocError` if memory runs out.
pub fn push_outcome(out: &mut Vec<u8>, bar: &Bar<'_, '_>) -> Result<(), AllocError>
    ensures { OnOk result (out.new.items ≡ out.old.items ++ outcome_of (bar_of bar.now)) }
{
    match bar.last {
        Some(event) => push_ended(out, &event.what),
        None => push_open(out, &bar.first.what),
    }
}

// Appends the outcome of a bar that ends with this event.
fn push_ended(out: &mut Vec<u8>, what: &What) -> Result<(), AllocError>
    ensures { OnOk result (out.new.items ≡ out.old.items ++ ended_text (what_of what.now)) }
{
    match what {
        What::Ends { exc, .. } => push_end(out, exc),
        What::Happens(Happening::Leaves { caught, .. }) => push_caught(out, *caught),
        _ => Ok(()),
    }
}

// Appends whether a scope or nursery caught a cancellation.
fn push_caught(out: &mut Vec<u8>, caught: bool) -> Result<(), AllocError>
    ensures { OnOk result (out.new.items ≡ out.old.items ++ (if caught then codes "caught" else codes "passed")) }
{
    if caught {
        out.extend_from_slice(b"caught")
    } else {
        out.extend_from_slice(b"passed")
    }
}

// Appends the outcome of a bar that begins with this event and has no end.
fn push_open(out: &mut Vec<u8>, what: &What) -> Result<(), AllocError>
    ensures { OnOk result (out.new.items ≡ out.old.items ++ open_text (what_of what.now)) }
{
    match what {
        What::Starts { .. } => out.extend_from_slice(b"running"),
        What::Happens(_) | What::Ends { .. } => out.extend_from_slice(b"open"),
    }
}

// Appends how a task ended.
fn push_end(out: &mut Vec<u8>, exc: &Option<Box<Exc>>) -> Result<(), AllocError>
    ensures { OnOk result (out.new.items ≡ out.old.items ++ end_text (unboxed_exc exc.now)) }
{
    let Some(exc) = exc else {
        return out.extend_from_slice(b"done");
    };
    push_raised(out, exc)
}
