ghost use Rattle.std.specs.Prelude.{◌≡◌, IfOk, map};
ghost use Rattle.job_story.specs.CancelledFrom.{table_in};
ghost use Rattle.story_index.specs.Seen.{event_in};
ghost use Rattle.chart.specs.HeldBars.{bar_of};
ghost use Rattle.svg.specs.Content.{IsDocument};
ghost use Rattle.svg.specs.Drawing as svg;
ghost use Rattle.commands.specs.Charts.{chart_of, IsInForm};

use crate::chart_form::ChartForm;
use chart::{Bar, StoryIndex, chart_text};
use job_meaning::Clock;
use job_story::{CancelledFrom, Event};
use std::alloc::{AllocError, Global};
use story_index::Causes;
use story_text::in_order;
use svg::{Picture, chart_svg};

// Returns the chart of a story with these events in the order of the walk, and this table.
pub(crate) fn chart_of<'e>(
    alloc: Global,
    clock: Clock,
    form: ChartForm,
    walked: &[&'e Event],
    cancelled_from: &'e CancelledFrom,
    until: Option<u64>,
) -> Result<Vec<u8>, AllocError>
    ensures chart { IfOk result (λ bytes. bytes.items ≡ chart_of clock form (table_in cancelled_from.entry.now) until (map event_in walked.now)) }
    ensures well { IfOk result (λ bytes. IsInForm form bytes.items) }
{
    let index = StoryIndex::of(alloc, walked)?;
    let bars = index.bars(alloc, clock, cancelled_from, until)?;
    match form {
        ChartForm::Text { width } => chart_text(
            alloc,
            clock,
            width,
            until,
            walked,
            bars.as_slice(),
        ),
        ChartForm::Svg { width } => {
            let picture = Picture {
                clock,
                width,
                until,
                walked,
                cancelled_from,
            };
            svg(alloc, &picture, bars.as_slice())
        }
    }
}

// Returns the chart that shows this as an SVG document, with these bars.
fn svg<'e>(
    alloc: Global,
    picture: &Picture<'_, 'e>,
    bars: &[Bar<'_, 'e>],
) -> Result<Vec<u8>, AllocError>
    ensures chart { IfOk result (λ bytes. bytes.items
        ≡ svg.chart_svg picture.now.clock picture.now.width (table_in picture.now.cancelled_from.now) picture.now.until
        (map event_in picture.now.walked.now) (map bar_of bars.now)) }
    ensures well { IfOk result (λ bytes. IsDocument bytes.items) }
{
    let sorted = in_order(alloc, picture.walked)?;
    let causes = Causes::of(alloc, sorted.as_slice(), picture.cancelled_from)?;
    chart_svg(alloc, picture, bars, sorted.as_slice(), &causes)
}
