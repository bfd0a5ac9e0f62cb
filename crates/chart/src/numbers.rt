ghost use Rattle.std.specs.Prelude.{◌≡◌, ◌++◌, IfOk, OnOk, decimal, map};
ghost use Rattle.job_story.specs.Sentences.{padded_text};
ghost use Rattle.chart.specs.HeldColumns.{column_of};
ghost use Rattle.chart.specs.Text.{has_room, placed, numbered, numbers};
ghost use Rattle.chart.specs.HeldText.{rows_held};

use crate::cells::push_times;
use crate::{Column, gap_less_to};
use basics::push_number;
use std::alloc::{AllocError, Global};

// The rows of the numbers above the columns. A number stands in the first row that has room for it.
#[derive(Drop)]
pub(crate) struct NumberRows {
    pub first: Vec<u8>,
    pub second: Vec<u8>,
    pub third: Vec<u8>,
    pub fourth: Vec<u8>,
}

// Returns the rows of the numbers of these columns.
pub(crate) fn numbers(
    alloc: Global,
    less: usize,
    columns: &[Column],
) -> Result<NumberRows, AllocError>
    ensures { IfOk result (λ rows. rows_held rows ≡ numbers less (map column_of columns.now)) }
{
    let mut rows = NumberRows {
        first: Vec::new(alloc),
        second: Vec::new(alloc),
        third: Vec::new(alloc),
        fourth: Vec::new(alloc),
    };
    place_all(&mut rows, less, columns)?;
    Ok(rows)
}

// Places the number of each column.
fn place_all(rows: &mut NumberRows, less: usize, columns: &[Column]) -> Result<(), AllocError>
    ensures { OnOk result (rows_held rows.new ≡ numbered less 0 (map column_of columns.now) (rows_held rows.old)) }
{
    let mut at = 0_usize;
    let mut rest = columns;
    'columns: while let Some((column, others)) = rest.split_first() {
        place(rows, at, column.tick)?;
        at = at.saturating_add(gap_less_to(less, column, others));
        rest = others;
    }
    Ok(())
}

// Places a number at a column, in the first row that has room for it, if there is one.
fn place(rows: &mut NumberRows, at: usize, tick: u64) -> Result<(), AllocError>
    ensures { OnOk result (rows_held rows.new ≡ placed at (decimal tick) (rows_held rows.old)) }
{
    if has_room(at, rows.first.as_slice()) {
        push_at(&mut rows.first, at, tick)
    } else if has_room(at, rows.second.as_slice()) {
        push_at(&mut rows.second, at, tick)
    } else if has_room(at, rows.third.as_slice()) {
        push_at(&mut rows.third, at, tick)
    } else if has_room(at, rows.fourth.as_slice()) {
        push_at(&mut rows.fourth, at, tick)
    } else {
        Ok(())
    }
}

// Returns whether a row has room for a number at a column.
fn has_room(at: usize, row: &[u8]) -> bool
    ensures { result ≡ has_room at row.now }
{
    row.is_empty() || row.len() < at
}

// Appends blanks up to a column, and a number there.
fn push_at(row: &mut Vec<u8>, at: usize, tick: u64) -> Result<(), AllocError>
    ensures { OnOk result (row.new.items ≡ padded_text at row.old.items ++ decimal tick) }
{
    let len = row.len();
    push_times(row, at.saturating_sub(len), b' ')?;
    push_number(row, tick)
}
