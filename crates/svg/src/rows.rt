ghost use Rattle.std.specs.Prelude.{◌≡◌, ◌≤◌, ◌+◌, ◌*◌, ◌++◌, OnOk, map, codes};
ghost use Rattle.chart.specs.HeldBars.{bar_of, event_seen};
ghost use Rattle.chart.specs.Text.{name_of, outcome_of};
ghost use Rattle.svg.specs.Content.{Content, content_text, element};
ghost use Rattle.svg.specs.declared.names.Tag.TheVariants as tags;
ghost use Rattle.svg.specs.Sheets.{outcome_x, x_at, y_of};
ghost use Rattle.svg.specs.Rows as drawn;
ghost use Rattle.svg.specs.Rows.{size_of, class_of, start_x, end_x, bar_title, rectangle, words, cancelled_part, rows};
ghost use Rattle.svg.specs.declared.layout.TheConstants.{LEFT, LETTER};
ghost use Rattle.svg.specs.Held.{sheet_held};

use crate::bars::{class_of, push_bar_title, size_of};
use crate::layout::{LEFT, LETTER};
use crate::marks::push_marks;
use crate::shapes::{begin_rectangle, push_words};
use crate::sheet::{Sheet, y_of};
use crate::{Tag, end, text};
use chart::{Bar, last_tick, push_name, push_outcome};
use std::alloc::{AllocError, Global};

// Appends the row of each of these bars, from this row on.
pub(crate) fn push_rows(
    alloc: Global,
    out: &mut Vec<u8>,
    sheet: &Sheet<'_, '_, '_>,
    bars: &[Bar<'_, '_>],
) -> Result<(), AllocError>
    ensures { OnOk result ((rest : Content) → out.new.items ++ content_text rest
        ≡ out.old.items ++ content_text (rows (sheet_held sheet.now) 0 (map bar_of bars.now) rest)) }
{
    let mut row = 0;
    'bars: for bar in bars {
        push_row(alloc, out, sheet, row, bar)?;
        row += 1;
    }
    Ok(())
}

// Appends the row of a bar.
fn push_row(
    alloc: Global,
    out: &mut Vec<u8>,
    sheet: &Sheet<'_, '_, '_>,
    row: usize,
    bar: &Bar<'_, '_>,
) -> Result<(), AllocError>
    ensures { OnOk result ((rest : Content) → out.new.items ++ content_text rest
        ≡ out.old.items ++ content_text (drawn.row (sheet_held sheet.now) row (bar_of bar.now) rest)) }
{
    push_row_name(alloc, out, row, bar)?;
    push_row_bar(alloc, out, sheet, row, bar)?;
    push_cancelled(out, sheet, row, bar)?;
    push_marks(alloc, out, sheet, row, bar.own)?;
    push_row_outcome(alloc, out, sheet, row, bar)?;
    text(out, b"\n")
}

// Appends the name of a row.
fn push_row_name(
    alloc: Global,
    out: &mut Vec<u8>,
    row: usize,
    bar: &Bar<'_, '_>,
) -> Result<(), AllocError>
    ensures { OnOk result ((rest : Content) → out.new.items ++ content_text rest ≡ out.old.items
        ++ content_text (words (codes "name") (LEFT + LETTER * (size_of (bar_of bar.now)).indent) (y_of row + 16) (name_of (bar_of bar.now)) rest)) }
{
    let mut name = Vec::new(alloc);
    push_name(&mut name, bar)?;
    let x = LEFT + LETTER * size_of(bar).indent;
    push_words(out, b"name", x, y_of(row) + 16, name.as_slice())
}

// Appends the rectangle of a bar.
fn push_row_bar(
    alloc: Global,
    out: &mut Vec<u8>,
    sheet: &Sheet<'_, '_, '_>,
    row: usize,
    bar: &Bar<'_, '_>,
) -> Result<(), AllocError>
    ensures { OnOk result ((rest : Content) → out.new.items ++ content_text rest ≡ out.old.items
        ++ content_text (element tags.Rect (rectangle row (size_of (bar_of bar.now)) (class_of (bar_of bar.now))
        (start_x (sheet_held sheet.now) (bar_of bar.now)) (end_x (sheet_held sheet.now) (bar_of bar.now)))
        (bar_title (sheet_held sheet.now) (bar_of bar.now)) rest)) }
{
    let x = sheet.x_of(bar.first.tick);
    begin_rectangle(out, row, size_of(bar), class_of(bar), x, end_x(sheet, bar))?;
    push_bar_title(alloc, out, sheet, bar)?;
    end(out, Tag::Rect)
}

// Returns the x coordinate at which a bar ends, in pixels. A bar without an end ends at the last column.
fn end_x(sheet: &Sheet<'_, '_, '_>, bar: &Bar<'_, '_>) -> u64
    ensures value { result ≡ end_x (sheet_held sheet.now) (bar_of bar.now) }
    ensures bound { result ≤ 100000000 }
{
    match bar.last {
        Some(event) => sheet.x_of(event.tick),
        None => sheet.x_at(last_tick(sheet.columns)),
    }
}

// Appends the part of a scope's or nursery's bar in which it is cancelled, if it is.
fn push_cancelled(
    out: &mut Vec<u8>,
    sheet: &Sheet<'_, '_, '_>,
    row: usize,
    bar: &Bar<'_, '_>,
) -> Result<(), AllocError>
    ensures { OnOk result ((rest : Content) → out.new.items ++ content_text rest ≡ out.old.items
        ++ content_text (cancelled_part (sheet_held sheet.now) row (bar_of bar.now) bar.now.cancelled rest)) }
{
    let Some(moment) = bar.cancelled else {
        return Ok(());
    };
    begin_rectangle(
        out,
        row,
        size_of(bar),
        b"from",
        sheet.x_by(moment),
        end_x(sheet, bar),
    )?;
    end(out, Tag::Rect)
}

// Appends the outcome of a bar.
fn push_row_outcome(
    alloc: Global,
    out: &mut Vec<u8>,
    sheet: &Sheet<'_, '_, '_>,
    row: usize,
    bar: &Bar<'_, '_>,
) -> Result<(), AllocError>
    ensures { OnOk result ((rest : Content) → out.new.items ++ content_text rest ≡ out.old.items
        ++ content_text (words (codes "outcome") (outcome_x (sheet_held sheet.now)) (y_of row + 16)
        (outcome_of (bar_of bar.now)) rest)) }
{
    let mut outcome = Vec::new(alloc);
    push_outcome(&mut outcome, bar)?;
    let x = sheet.outcome_x();
    push_words(out, b"outcome", x, y_of(row) + 16, outcome.as_slice())
}
