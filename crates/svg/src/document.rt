ghost use Rattle.std.specs.Prelude.{◌≡◌, ◌≤◌, ◌+◌, ◌*◌, ◌++◌, [], IfOk, OnOk, length, map, take};
ghost use Rattle.job_story.specs.Events.{in_order};
ghost use Rattle.job_story.specs.CancelledFrom.{table_in};
ghost use Rattle.story_index.specs.Knows.{Knows};
ghost use Rattle.story_index.specs.Seen.{event_in};
ghost use Rattle.story_text.specs.Known.{events_in, cancelled_from_in};
ghost use Rattle.chart.specs.HeldBars.{bar_of};
ghost use Rattle.svg.specs.Content.{Content, nothing, text, element, content_text, start_tag, IsDocument};
ghost use Rattle.svg.specs.declared.names.Tag.TheVariants as tags;
ghost use Rattle.svg.specs.Drawing.{title_bytes, style, definitions, tick_lines, notes, bottom_of, width_of, height_of, svg_attributes, inside_of, document, chart_svg};
ghost use Rattle.svg.specs.Rows.{rows};
ghost use Rattle.svg.specs.Arrows.{arrows};
ghost use Rattle.svg.specs.Legend.{legend};
ghost use Rattle.svg.specs.Sheets.{is_linear};
ghost use Rattle.svg.specs.Held.{sheet_held};
ghost use Rattle.svg.specs.declared.layout.TheConstants.{MAX_ROWS, ROW};

use crate::arrows::push_arrows;
use crate::axis::is_linear;
use crate::definitions::{push_definitions, push_style};
use crate::layout::{LEFT, LEGEND, LETTER, MAX_ROWS, MAX_SHOWN, ROW};
use crate::legend::push_legend;
use crate::notes::{Noted, push_notes};
use crate::rows::push_rows;
use crate::scene::Scene;
use crate::sheet::{Sheet, y_of};
use crate::ticks::push_tick_lines;
use crate::{Attr, Tag, attribute, begin, end, inside, number, text};
use basics::push_number;
use chart::{
    Bar, all_ticks, columns_of, last_tick, less_to_fit, longest_name, longest_outcome, push_name,
};
use job_meaning::Clock;
use job_story::{CancelledFrom, Event};
use std::alloc::{AllocError, Global};
use story_index::Causes;
use story_text::Known;
use story_waits::QueueNotes;

/// The story that a chart shows, and the width of the chart.
#[derive(Clone, Copy)]
pub struct Picture<'w, 'e> {
    /// The clock of the story's moments.
    pub clock: Clock,
    /// The gaps between columns are as much smaller as in a text chart of this many characters.
    pub width: usize,
    /// The limit at which the story is cut off, or `None` for a whole story.
    pub until: Option<u64>,
    /// Its events in the order of the walk.
    pub walked: &'w [&'e Event],
    /// The table with the moments from which its scopes and nurseries are cancelled, and the events of the job set.
    pub cancelled_from: &'e CancelledFrom,
}

/// Returns a chart as an SVG document, which is always well formed. `picture` is what it shows, `bars` are the bars of its events,
/// `sorted` are these events in order, and `causes` is the index of the sorted events and the table of cancellations. The caller
/// must ensure that `sorted` is `in_order` of the events in the order of the walk, and that `causes` is that index.
///
/// There is a column for each tick at which something happens. The gaps between them are never so small that the numbers above
/// them overlap. A note says so if they are not to scale, and another one at which limit the story is cut off. At most 2,000 rows
/// are drawn, and a note says how many are left out. Returns `AllocError` if memory runs out.
pub fn chart_svg<'e>(
    alloc: Global,
    picture: &Picture<'_, 'e>,
    bars: &[Bar<'_, 'e>],
    sorted: &[&'e Event],
    causes: &Causes<'e>,
) -> Result<Vec<u8>, AllocError>
    requires knows { Knows causes.now (table_in picture.now.cancelled_from.now) (map event_in sorted.now) }
    requires sorted { map event_in sorted.now ≡ in_order (map event_in picture.now.walked.now) }
    ensures drawing { IfOk result (λ svg. svg.items
        ≡ chart_svg picture.now.clock picture.now.width (table_in picture.now.cancelled_from.now) picture.now.until
        (map event_in picture.now.walked.now) (map bar_of bars.now)) }
    ensures well_formed { IfOk result (λ svg. IsDocument svg.items) }
{
    let (clock, until) = (picture.clock, picture.until);
    let ticks = all_ticks(alloc, clock, picture.walked, until)?;
    let columns = columns_of(alloc, ticks.as_slice())?;
    let less = less_to_fit(alloc, picture.width, columns.as_slice(), bars)?;
    let notes = QueueNotes::of(alloc, picture.walked)?;
    let known = Known::new(clock, sorted, picture.cancelled_from, causes, &notes);
    let sheet = Sheet {
        names: longest_name(alloc, bars)?,
        columns: columns.as_slice(),
        less,
        clock,
        known: &known,
    };
    document(alloc, &sheet, causes, until, bars)
}

// Returns the document.
fn document(
    alloc: Global,
    sheet: &Sheet<'_, '_, '_>,
    causes: &Causes<'_>,
    until: Option<u64>,
    bars: &[Bar<'_, '_>],
) -> Result<Vec<u8>, AllocError>
    requires { Knows causes.now (cancelled_from_in sheet.now.known.now) (events_in sheet.now.known.now) }
    ensures drawing { IfOk result (λ svg. svg.items ≡ content_text (document (sheet_held sheet.now) until (map bar_of bars.now))) }
    ensures well_formed { IfOk result (λ svg. IsDocument svg.items) }
{
    let mut out = Vec::new(alloc);
    let width = width_of(alloc, sheet, bars)?;
    begin_svg(alloc, &mut out, width, height_of(bars))?;
    push_inside(alloc, &mut out, sheet, causes, until, bars)?;
    end(&mut out, Tag::Svg)?;
    Ok(out)
}

// Begins the document.
fn begin_svg(alloc: Global, out: &mut Vec<u8>, width: u64, height: u64) -> Result<(), AllocError>
    ensures { OnOk result (out.new.items ≡ out.old.items ++ start_tag tags.Svg (svg_attributes width height)) }
{
    let mut view = Vec::new(alloc);
    view.extend_from_slice(b"0 0 ")?;
    push_number(&mut view, width)?;
    view.extend_from_slice(b" ")?;
    push_number(&mut view, height)?;
    begin(out, Tag::Svg)?;
    attribute(out, Attr::Xmlns, b"http://www.w3.org/2000/svg")?;
    attribute(out, Attr::ViewBox, view.as_slice())?;
    number(out, Attr::Width, width)?;
    number(out, Attr::Height, height)?;
    inside(out)
}

// Appends the content of the document.
fn push_inside(
    alloc: Global,
    out: &mut Vec<u8>,
    sheet: &Sheet<'_, '_, '_>,
    causes: &Causes<'_>,
    until: Option<u64>,
    bars: &[Bar<'_, '_>],
) -> Result<(), AllocError>
    requires { Knows causes.now (cancelled_from_in sheet.now.known.now) (events_in sheet.now.known.now) }
    ensures { OnOk result (out.new.items ≡ out.old.items ++ content_text (inside_of (sheet_held sheet.now) until (map bar_of bars.now))) }
{
    push_head(alloc, out, bars)?;
    push_lines(alloc, out, sheet, bars)?;
    push_shown(alloc, out, sheet, causes, shown_rows(bars))?;
    push_noted(alloc, out, sheet, until, bars)?;
    push_legend(out, bottom_of(bars) + ROW * 3 + 12)
}

// Appends the title, the style sheet and the definitions.
fn push_head(alloc: Global, out: &mut Vec<u8>, bars: &[Bar<'_, '_>]) -> Result<(), AllocError>
    ensures { OnOk result ((rest : Content) → out.new.items ++ content_text rest ≡ out.old.items
        ++ content_text (element tags.Title [] (text (title_bytes (map bar_of bars.now)) nothing) (style (definitions rest)))) }
{
    push_title(alloc, out, bars)?;
    push_style(out)?;
    push_definitions(out)
}

// Appends the ticks, with a line down from each to the end of the rows.
fn push_lines(
    alloc: Global,
    out: &mut Vec<u8>,
    sheet: &Sheet<'_, '_, '_>,
    bars: &[Bar<'_, '_>],
) -> Result<(), AllocError>
    ensures { OnOk result ((rest : Content) → out.new.items ++ content_text rest ≡ out.old.items
        ++ content_text (tick_lines (sheet_held sheet.now) (bottom_of (map bar_of bars.now)) 0 (sheet_held sheet.now).columns rest)) }
{
    push_tick_lines(alloc, out, sheet, bottom_of(bars), sheet.columns)
}

// Appends these rows, and then their arrows.
fn push_shown(
    alloc: Global,
    out: &mut Vec<u8>,
    sheet: &Sheet<'_, '_, '_>,
    causes: &Causes<'_>,
    shown: &[Bar<'_, '_>],
) -> Result<(), AllocError>
    requires { Knows causes.now (cancelled_from_in sheet.now.known.now) (events_in sheet.now.known.now) }
    ensures { OnOk result ((rest : Content) → out.new.items ++ content_text rest ≡ out.old.items
        ++ content_text (rows (sheet_held sheet.now) 0 (map bar_of shown.now)
        (arrows (sheet_held sheet.now) (map bar_of shown.now) 0 (map bar_of shown.now) rest))) }
{
    push_rows(alloc, out, sheet, shown)?;
    let scene = Scene {
        sheet,
        causes,
        bars: shown,
    };
    push_arrows(alloc, out, &scene)
}

// Appends the notes.
fn push_noted(
    alloc: Global,
    out: &mut Vec<u8>,
    sheet: &Sheet<'_, '_, '_>,
    until: Option<u64>,
    bars: &[Bar<'_, '_>],
) -> Result<(), AllocError>
    ensures { OnOk result ((rest : Content) → out.new.items ++ content_text rest ≡ out.old.items
        ++ content_text (notes until (bottom_of (map bar_of bars.now)) (is_linear (sheet_held sheet.now).less (sheet_held sheet.now).columns)
        (length (map bar_of bars.now)) rest)) }
{
    let noted = Noted {
        until,
        linear: is_linear(sheet.less, sheet.columns),
        rows: bars.len(),
    };
    push_notes(alloc, out, bottom_of(bars), noted)
}

// Appends the title of the document: the name of the job.
fn push_title(alloc: Global, out: &mut Vec<u8>, bars: &[Bar<'_, '_>]) -> Result<(), AllocError>
    ensures { OnOk result ((rest : Content) → out.new.items ++ content_text rest
        ≡ out.old.items ++ content_text (element tags.Title [] (text (title_bytes (map bar_of bars.now)) nothing) rest)) }
{
    let mut name = Vec::new(alloc);
    if let Some(bar) = bars.first() {
        push_name(&mut name, bar)?;
    }
    begin(out, Tag::Title)?;
    inside(out)?;
    text(out, name.as_slice())?;
    end(out, Tag::Title)
}

// Returns the width of the document, in pixels.
fn width_of(
    alloc: Global,
    sheet: &Sheet<'_, '_, '_>,
    bars: &[Bar<'_, '_>],
) -> Result<u64, AllocError>
    ensures { IfOk result (λ width. width ≡ width_of (sheet_held sheet.now) (map bar_of bars.now)) }
{
    let outcomes = longest_outcome(alloc, bars)?.min(MAX_SHOWN) as u64;
    let drawn = sheet.x_at(last_tick(sheet.columns)) + LETTER * (outcomes + 4);
    Ok(drawn.max(LEFT + LEGEND))
}

// Returns the height of the document, in pixels.
fn height_of(bars: &[Bar<'_, '_>]) -> u64
    ensures { result ≡ height_of (map bar_of bars.now) }
{
    bottom_of(bars) + ROW * 7
}

// Returns the y coordinate at which the rows end, in pixels.
fn bottom_of(bars: &[Bar<'_, '_>]) -> u64
    ensures value { result ≡ bottom_of (map bar_of bars.now) }
    ensures bound { result ≤ 48044 }
{
    y_of(shown_rows(bars).len())
}

/// Returns the bars of a chart that have a row in its drawing: the first `MAX_ROWS`.
pub fn shown_rows<'b, 'i, 'e>(bars: &'b [Bar<'i, 'e>]) -> &'b [Bar<'i, 'e>]
    ensures { map bar_of result.now ≡ take MAX_ROWS (map bar_of bars.now) }
{
    let (shown, _) = bars.split_at(MAX_ROWS.min(bars.len()));
    shown
}
