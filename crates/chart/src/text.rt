ghost use Rattle.std.specs.Prelude.{◌≡◌, ◌++◌, ◌<◌, IfOk, map, length};
ghost use Rattle.story_index.specs.Seen.{event_in};
ghost use Rattle.chart.specs.HeldBars.{bar_of};
ghost use Rattle.chart.specs.HeldColumns.{column_of};
ghost use Rattle.chart.specs.Text.{limit_text, panel_size, panel_count, panels_text, chart_text};

use crate::lines::{Sheet, push_limit};
use crate::panels::{Panels, push_panels};
use crate::widths::{longest_name, room_for};
use crate::{Bar, Column, all_ticks, columns_of, fits_less, last_tick, less_for};
use basics::digit_count;
use job_meaning::Clock;
use job_story::Event;
use std::alloc::{AllocError, Global};

/// The minimum number of columns in a panel.
const LEAST_PANEL: usize = 10;

/// Returns the text of a chart with these events, in the order of the walk, and their bars: up to four lines with the ticks of
/// the columns, and a line for each bar. There is a column for each tick at which something happens. `clock` says how the moments
/// of the events are counted. What happens in different rounds of a tick is shown in the column of the tick. If the story is cut
/// off at a limit (`until`), a line says so.
///
/// The gaps between columns grow with the logarithm of the time between them; if the columns do not fit so, each gap is smaller
/// by the same number of characters, but at least one character. If they do not fit even with gaps of one character, the chart
/// has several panels, one below the other; a bar that goes on in another panel is marked by `~`.
///
/// No line is longer than `width` bytes, not counting its newline, if `width` is at least 2. Returns `AllocError` if memory runs
/// out.
pub fn chart_text(
    alloc: Global,
    clock: Clock,
    width: usize,
    until: Option<u64>,
    walked: &[&Event],
    bars: &[Bar<'_, '_>],
) -> Result<Vec<u8>, AllocError>
    ensures { IfOk result (λ text. text.items ≡ chart_text clock width until (map event_in walked.now) (map bar_of bars.now)) }
{
    let ticks = all_ticks(alloc, clock, walked, until)?;
    let columns = columns_of(alloc, ticks.as_slice())?;
    let names = longest_name(alloc, bars)?;
    let room = room_for(alloc, width, names, bars)?;
    let less = less_for(room, columns.as_slice());
    let sheet = Sheet {
        clock,
        width,
        last: last_tick(columns.as_slice()),
        less,
        names,
    };
    let size = panel_size(room, less, columns.as_slice());
    text_in_panels(alloc, sheet, until, size, columns.as_slice(), bars)
}

// Returns the number of columns in a panel.
fn panel_size(room: usize, less: usize, columns: &[Column]) -> usize
    ensures { result ≡ panel_size room less (map column_of columns.now) }
{
    if fits_less(less, room, columns) {
        return columns.len().max(1);
    }
    room.saturating_sub(digit_count(last_tick(columns)))
        .max(LEAST_PANEL)
}

// Returns the text with these columns in panels of a size. The sheet has the last of these columns.
fn text_in_panels(
    alloc: Global,
    sheet: Sheet,
    until: Option<u64>,
    size: usize,
    columns: &[Column],
    bars: &[Bar<'_, '_>],
) -> Result<Vec<u8>, AllocError>
    requires { 0 < size }
    ensures { IfOk result (λ text. text.items ≡ panels_text sheet.clock sheet.width sheet.last sheet.less sheet.names (map bar_of bars.now) size
        (panel_count size (length columns.now)) (map column_of columns.now) ++ limit_text sheet.width until) }
{
    let mut out = Vec::new(alloc);
    let panels = Panels {
        columns,
        size,
        count: columns.len().div_ceil(size),
    };
    push_panels(alloc, &mut out, sheet, bars, &panels)?;
    push_limit(alloc, &mut out, sheet.width, until)?;
    Ok(out)
}
