ghost use Rattle.std.specs.Prelude.{◌≡◌, ◌+◌, ◌==◌, ℕ, Some, None, OnOk, OnErr, if◌then◌else◌};
ghost use Rattle.std.specs.Option.{option_map, option_or};
ghost use Rattle.exceptions.specs.Exceptions as tree;
ghost use Rattle.job_meaning.specs.Log.{same_label};
ghost use Rattle.job_story.specs.Causes.{entering_by, cause_in};
ghost use Rattle.job_story.specs.CancelledFrom.{table_in};
ghost use Rattle.job_story.specs.Held.{what_of};
ghost use Rattle.job_story.specs.Tell.{is_from};
ghost use Rattle.story_index.specs.Found.{entering_in_code, cause_in_code, value_at};

use crate::causes::Entering;
use crate::sign::{Cause, sign_of};
use exceptions::Label;
use indexmap::IndexMap;
use job_story::{CancelledFrom, Event, Happening, What};
use std::alloc::AllocError;

// Records how a label was entered, if the event enters a label that was not entered before.
pub(crate) fn note_entering<'e>(
    entered: &mut IndexMap<&'e Label, Entering>,
    what: &'e What,
) -> Result<(), AllocError>
    ensures { OnOk result ((l : tree.Label) → option_map entering_in_code (value_at entered.new l)
        ≡ option_or (option_map entering_in_code (value_at entered.old l)) (entering_by l (what_of what.entry.now) None)) }
{
    let What::Happens(
        Happening::Enters {
            kind,
            label,
            deadline,
            ..
        },
    ) = what
    else {
        return Ok(());
    };
    let entering = Entering {
        kind: *kind,
        deadline: *deadline,
    };
    put_first(entered, label, entering)?;
    Ok(())
}

// Records why a label is cancelled, or set, if the event of the story cancels or sets it in the moment before the one from which
// it is cancelled or set, and no earlier one did so.
pub(crate) fn note_sign<'e>(
    signed: &mut IndexMap<&'e Label, Cause<'e>>,
    cancelled_from: &CancelledFrom,
    event: &'e Event,
) -> Result<(), AllocError>
    ensures { OnOk result ((l : tree.Label) (from : ℕ) → table_in cancelled_from.now l ≡ Some from →
        option_map cause_in_code (value_at signed.new l) ≡ option_or (option_map cause_in_code (value_at signed.old l))
        (if event.entry.now.tick + 1 == from
        then cause_in l event.entry.now.tick event.entry.now.task (what_of event.entry.now.what) else None)) }
{
    let Some(sign) = sign_of(event) else {
        return Ok(());
    };
    if !is_next(event.tick, cancelled_from.of(sign.label)) {
        return Ok(());
    }
    put_first(signed, sign.label, sign.cause)?;
    Ok(())
}

// Returns whether the second moment is the one after the first. `None` is never.
fn is_next(tick: u64, from: Option<u64>) -> bool
    ensures { result ≡ is_from from (tick + 1) }
{
    match from {
        Some(from) => tick < from && from - tick == 1,
        None => false,
    }
}

/// Inserts a value for a label, unless the label already has one. Returns `AllocError` if memory runs out; the map then stays as
/// it was.
pub fn put_first<'e, V: Copy>(
    map: &mut IndexMap<&'e Label, V>,
    label: &'e Label,
    value: V,
) -> Result<(), AllocError>
    ensures put { OnOk result ((l : tree.Label) → value_at map.new l
        ≡ option_or (value_at map.old l) (if same_label label.entry.now l then Some value else None)) }
    ensures err { OnErr result ((l : tree.Label) → value_at map.new l ≡ value_at map.old l) }
{
    if map.contains_key(&label) {
        return Ok(());
    }
    map.insert(label, value)?;
    Ok(())
}
