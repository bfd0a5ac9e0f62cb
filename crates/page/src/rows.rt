ghost use Rattle.std.specs.Prelude.{◌≡◌, ◌++◌, List, map, take, IfOk, OnOk};
ghost use Rattle.chart.specs.HeldBars.{bar_of};
ghost use Rattle.svg.specs.declared.layout.TheConstants.{MAX_ROWS};
ghost use Rattle.page.specs.Links as links;
ghost use Rattle.page.specs.Links.{with_row, rows_from, has_row};
ghost use Rattle.page.specs.Views.{row_held};

use chart::Bar;
use exceptions::push_label;
use std::alloc::{AllocError, Global};
use svg::shown_rows;

/// The row of a task in the chart.
#[derive(Drop)]
pub struct Row {
    /// The text of the task's label.
    pub label: Vec<u8>,
    /// The number of the row, from 0 on.
    pub row: usize,
}

// Returns the rows of the tasks among the bars that a chart shows.
pub(crate) fn task_rows(alloc: Global, bars: &[Bar<'_, '_>]) -> Result<Vec<Row>, AllocError>
    ensures { IfOk result (λ rows. map row_held rows.items ≡ rows_from 0 (take MAX_ROWS (map bar_of bars.now))) }
{
    rows_among(alloc, shown_rows(bars))
}

// Returns the rows of the tasks among these bars, which have the rows from the first on.
fn rows_among(alloc: Global, bars: &[Bar<'_, '_>]) -> Result<Vec<Row>, AllocError>
    ensures { IfOk result (λ rows. map row_held rows.items ≡ rows_from 0 (map bar_of bars.now)) }
{
    let mut rows = Vec::new(alloc);
    'bars: for (i, bar) in bars.iter().enumerate() {
        push_row(alloc, &mut rows, bar, i)?;
    }
    Ok(rows)
}

// Appends the row of a bar, if the bar is that of a task.
fn push_row(
    alloc: Global,
    rows: &mut Vec<Row>,
    bar: &Bar<'_, '_>,
    row: usize,
) -> Result<(), AllocError>
    ensures { OnOk result ((later : List links.Row) → map row_held rows.new.items ++ later ≡ map row_held rows.old.items ++ with_row row (bar_of bar.now) later) }
{
    if !bar.first.what.is_start() {
        return Ok(());
    }
    let mut label = Vec::new(alloc);
    push_label(&mut label, &bar.first.task)?;
    rows.push(Row { label, row })?;
    Ok(())
}

// Returns whether a task has a row.
pub(crate) fn has_row(rows: &[Row], label: &[u8]) -> bool
    ensures { result ≡ has_row (map row_held rows.now) label.now }
{
    let mut rest = rows;
    'rows: while let Some((row, others)) = rest.split_first() {
        if row.label.as_slice() == label {
            return true;
        }
        rest = others;
    }
    false
}
