ghost use Rattle.story_index.specs.Knows.{Knows};
ghost use Rattle.story_text.specs.Known.{events_in, cancelled_from_in};

use crate::sheet::Sheet;
use chart::Bar;
use story_index::Causes;

// What the arrows of a drawing depend on: its sheet, the index of its story, and the bars that have a row.
#[derive(Clone, Copy)]
pub(crate) struct Scene<'a> {
    pub sheet: &'a Sheet<'a, 'a, 'a>,
    pub causes: &'a Causes<'a>,
    pub bars: &'a [Bar<'a, 'a>],
    ghost knows: { Knows causes.now (cancelled_from_in sheet.now.known.now) (events_in sheet.now.known.now) },
}
