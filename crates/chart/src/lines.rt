ghost use Rattle.std.specs.Prelude.{◌≡◌, ◌+◌, ◌++◌, ℕ, List, IfOk, OnOk, map, replicate};
ghost use Rattle.chart.specs.HeldBars.{bar_of};
ghost use Rattle.chart.specs.HeldColumns.{column_of};
ghost use Rattle.chart.specs.Text.{cut_line, number_line, header, first_tick, is_there, mark_before, text_after, row_text, line_if_there, row_line, rows_text, limit_text};
ghost use Rattle.chart.specs.HeldText.{row_held, rows_held};

use crate::cells::{push_cells, push_times};
use crate::names::{push_name, push_outcome};
use crate::numbers::NumberRows;
use crate::row::{Row, row_of};
use crate::{Bar, Column, last_tick};
use basics::push_number;
use job_meaning::Clock;
use std::alloc::{AllocError, Global};

// Appends a line and a newline. A line that is longer than the width is cut, and ends in `..`.
pub(crate) fn push_cut(out: &mut Vec<u8>, width: usize, line: &[u8]) -> Result<(), AllocError>
    ensures { OnOk result (out.new.items ≡ out.old.items ++ cut_line width line.now) }
{
    if line.len() <= width {
        out.extend_from_slice(line)?;
        return out.extend_from_slice(b"\n");
    }
    out.extend_from_slice(&line[..width.saturating_sub(2)])?;
    out.extend_from_slice(b"..\n")
}

// Appends the rows of numbers that are not empty, a line each.
pub(crate) fn push_header(
    alloc: Global,
    out: &mut Vec<u8>,
    width: usize,
    names: usize,
    rows: &NumberRows,
) -> Result<(), AllocError>
    ensures { OnOk result (out.new.items ≡ out.old.items ++ header width names (rows_held rows.now)) }
{
    push_numbers(alloc, out, width, names, rows.first.as_slice())?;
    push_numbers(alloc, out, width, names, rows.second.as_slice())?;
    push_numbers(alloc, out, width, names, rows.third.as_slice())?;
    push_numbers(alloc, out, width, names, rows.fourth.as_slice())
}

// Appends a row of numbers as a line, unless it is empty.
fn push_numbers(
    alloc: Global,
    out: &mut Vec<u8>,
    width: usize,
    names: usize,
    row: &[u8],
) -> Result<(), AllocError>
    ensures { OnOk result ((others : List ℕ) → out.new.items ++ others ≡ out.old.items ++ (number_line width names row.now ++ others)) }
{
    if row.is_empty() {
        return Ok(());
    }
    let mut line = Vec::new(alloc);
    push_margin(&mut line, names)?;
    line.extend_from_slice(row)?;
    push_cut(out, width, line.as_slice())
}

// Appends spaces, as many as a name and the two bytes after it take.
#[tactic(auto, using(crate::proofs::Margin::margin))]
fn push_margin(line: &mut Vec<u8>, names: usize) -> Result<(), AllocError>
    ensures { OnOk result (line.new.items ≡ line.old.items ++ replicate (names + 2) 32) }
{
    push_times(line, names, b' ')?;
    push_times(line, 2, b' ')?;
    Ok(())
}

// How a chart is laid out: the clock of its story, how wide it is, its last tick, by how much its gaps are smaller than they
// would be with ample room, and the length of its longest name.
#[derive(Clone, Copy)]
pub(crate) struct Sheet {
    pub clock: Clock,
    pub width: usize,
    pub last: u64,
    pub less: usize,
    pub names: usize,
}

// Appends the line of each bar that has a part at these columns.
pub(crate) fn push_rows(
    alloc: Global,
    out: &mut Vec<u8>,
    sheet: Sheet,
    columns: &[Column],
    bars: &[Bar<'_, '_>],
) -> Result<(), AllocError>
    ensures { OnOk result (out.new.items ≡ out.old.items
        ++ rows_text sheet.clock sheet.width sheet.last sheet.less (map column_of columns.now) sheet.names (map bar_of bars.now)) }
{
    'bars: for bar in bars {
        push_row(alloc, out, sheet, columns, bar)?;
    }
    Ok(())
}

// Appends the line of a bar, if it has a part at these columns.
fn push_row(
    alloc: Global,
    out: &mut Vec<u8>,
    sheet: Sheet,
    columns: &[Column],
    bar: &Bar<'_, '_>,
) -> Result<(), AllocError>
    ensures { OnOk result ((others : List ℕ) → out.new.items ++ others ≡ out.old.items
        ++ (row_line sheet.clock sheet.width sheet.last sheet.less (map column_of columns.now) sheet.names (bar_of bar.now) ++ others)) }
{
    let row = row_of(alloc, sheet.clock, sheet.last, bar)?;
    push_if_there(alloc, out, sheet, &row, columns, bar)?;
    Ok(())
}

// Appends the line of a row, if it has a part at these columns.
fn push_if_there(
    alloc: Global,
    out: &mut Vec<u8>,
    sheet: Sheet,
    row: &Row,
    columns: &[Column],
    bar: &Bar<'_, '_>,
) -> Result<(), AllocError>
    ensures { OnOk result ((others : List ℕ) → out.new.items ++ others ≡ out.old.items
        ++ (line_if_there sheet.width sheet.less (row_held row.now) (map column_of columns.now) sheet.names (bar_of bar.now) ++ others)) }
{
    if !row.is_there(columns) {
        return Ok(());
    }
    let line = row_text(alloc, sheet, row, columns, bar)?;
    push_cut(out, sheet.width, line.as_slice())?;
    Ok(())
}

impl Row {
    // Returns whether the row has a part at these columns.
    fn is_there(&self, columns: &[Column]) -> bool
        ensures { result ≡ is_there (row_held self.now) (map column_of columns.now) }
    {
        self.start <= last_tick(columns) && first_tick(columns) <= self.end
    }
}

// Returns the tick of the first column, or 0 if there is none.
fn first_tick(columns: &[Column]) -> u64
    ensures { result ≡ first_tick (map column_of columns.now) }
{
    match columns.first() {
        Some(column) => column.tick,
        None => 0,
    }
}

// Returns the line of a bar at these columns, of any length.
fn row_text(
    alloc: Global,
    sheet: Sheet,
    row: &Row,
    columns: &[Column],
    bar: &Bar<'_, '_>,
) -> Result<Vec<u8>, AllocError>
    ensures { IfOk result (λ line. line.items ≡ row_text sheet.less (row_held row.now) (map column_of columns.now) sheet.names (bar_of bar.now)) }
{
    let mut line = Vec::new(alloc);
    push_name(&mut line, bar)?;
    let len = line.len();
    push_times(&mut line, sheet.names.saturating_sub(len), b' ')?;
    line.extend_from_slice(b" ")?;
    line.extend_from_slice(mark_before(row, columns))?;
    push_cells(&mut line, sheet.less, row, columns)?;
    push_after(&mut line, row, columns, bar)?;
    Ok(line)
}

// Returns the mark before the first of these columns: `~` if the row began before it.
fn mark_before(row: &Row, columns: &[Column]) -> &'static [u8]
    ensures { result.now ≡ mark_before (row_held row.now) (map column_of columns.now) }
{
    if row.start < first_tick(columns) {
        b"~"
    } else {
        b" "
    }
}

// Appends what is after the last of these columns: the outcome of a bar, or `~` if it goes on.
fn push_after(
    line: &mut Vec<u8>,
    row: &Row,
    columns: &[Column],
    bar: &Bar<'_, '_>,
) -> Result<(), AllocError>
    ensures { OnOk result (line.new.items ≡ line.old.items ++ text_after (row_held row.now) (map column_of columns.now) (bar_of bar.now)) }
{
    if row.end <= last_tick(columns) {
        line.extend_from_slice(b" ")?;
        return push_outcome(line, bar);
    }
    line.extend_from_slice(b"~")
}

// Appends the line for the limit, if the story is cut off at one.
pub(crate) fn push_limit(
    alloc: Global,
    out: &mut Vec<u8>,
    width: usize,
    until: Option<u64>,
) -> Result<(), AllocError>
    ensures { OnOk result (out.new.items ≡ out.old.items ++ limit_text width until) }
{
    let Some(limit) = until else {
        return Ok(());
    };
    let mut line = Vec::from_slice(alloc, b"limit ")?;
    push_number(&mut line, limit)?;
    push_cut(out, width, line.as_slice())
}
