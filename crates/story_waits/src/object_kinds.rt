ghost use Rattle.std.specs.Prelude.{◌≡◌, None, IfOk, OnOk, map};
ghost use Rattle.std.specs.Option.{option_or};
ghost use Rattle.exceptions.specs.Exceptions as tree;
ghost use Rattle.job_story.specs.Held.{what_of};
ghost use Rattle.job_story.specs.Notes.{kind_by, kind_of};
ghost use Rattle.story_index.specs.Found.{value_at};
ghost use Rattle.story_index.specs.Seen.{event_in};

use exceptions::Label;
use indexmap::IndexMap;
use job_story::{Event, Happening, What};
use job_tree::ObjectKind;
use std::alloc::{AllocError, Global};
use story_index::put_first;

// Returns what each limiter and channel of a story is, and of which size.
pub(crate) fn kinds_of<'e>(
    alloc: Global,
    walked: &[&'e Event],
) -> Result<IndexMap<&'e Label, ObjectKind>, AllocError>
    ensures { IfOk result (λ kinds. (l : tree.Label) → value_at kinds l ≡ kind_of l (map event_in walked.now)) }
{
    let mut kinds = IndexMap::new(alloc);
    'events: for event in walked {
        note_kind(&mut kinds, &event.what)?;
    }
    Ok(kinds)
}

// Records what a limiter or channel is, if the event enters one that was not entered before.
fn note_kind<'e>(
    kinds: &mut IndexMap<&'e Label, ObjectKind>,
    what: &'e What,
) -> Result<(), AllocError>
    ensures { OnOk result ((l : tree.Label) → value_at kinds.new l ≡ option_or (value_at kinds.old l) (kind_by l (what_of what.entry.now) None)) }
{
    let What::Happens(Happening::EntersObject { kind, label }) = what else {
        return Ok(());
    };
    put_first(kinds, label, *kind)?;
    Ok(())
}
