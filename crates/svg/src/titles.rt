ghost use Rattle.std.specs.Prelude.{◌≡◌, ◌++◌, OnOk, map};
ghost use Rattle.story_index.specs.Seen.{event_in};
ghost use Rattle.svg.specs.Content.{content_text};
ghost use Rattle.svg.specs.Sheets.{events_title};
ghost use Rattle.svg.specs.Held.{sheet_held};

use crate::sheet::Sheet;
use crate::{Tag, begin, end, inside, text};
use job_story::Event;
use std::alloc::{AllocError, Global};
use story_text::kept_text;

// Appends what the story says of these events, as a title.
pub(crate) fn push_title(
    alloc: Global,
    out: &mut Vec<u8>,
    sheet: &Sheet<'_, '_, '_>,
    events: &[&Event],
) -> Result<(), AllocError>
    ensures { OnOk result (out.new.items ≡ out.old.items ++ content_text (events_title (sheet_held sheet.now) (map event_in events.now))) }
{
    let title = kept_text(alloc, events, sheet.known)?;
    begin(out, Tag::Title)?;
    inside(out)?;
    text(out, title.as_slice())?;
    end(out, Tag::Title)
}
