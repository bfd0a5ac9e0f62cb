ghost use Rattle.std.specs.Prelude.{◌≡◌, ◌++◌, OnOk, map, replicate};
ghost use Rattle.chart.specs.HeldColumns.{column_of};
ghost use Rattle.chart.specs.Marks.{has, mark_at, cells};
ghost use Rattle.chart.specs.HeldText.{row_held};

use crate::row::Row;
use crate::{Column, gap_less_to};
use std::alloc::AllocError;

// Appends the marks of a row at these columns, and the lines between them, with gaps that are `less` smaller.
pub(crate) fn push_cells(
    out: &mut Vec<u8>,
    less: usize,
    row: &Row,
    columns: &[Column],
) -> Result<(), AllocError>
    ensures { OnOk result (out.new.items ≡ out.old.items ++ cells less (row_held row.now) (map column_of columns.now)) }
{
    let mut rest = columns;
    'columns: while let Some((column, others)) = rest.split_first() {
        if column.tick < row.start {
            push_times(out, gap_less_to(less, column, others), b' ')?;
            rest = others;
            continue 'columns;
        }
        out.push(row.mark_at(column.tick))?;
        if row.end <= column.tick {
            return Ok(());
        }
        push_times(
            out,
            gap_less_to(less, column, others).saturating_sub(1),
            row.strokes.line,
        )?;
        rest = others;
    }
    Ok(())
}

impl Row {
    // Returns the mark at a column.
    fn mark_at(&self, tick: u64) -> u8
        ensures { result ≡ mark_at (row_held self.now) tick }
    {
        if has(tick, self.crosses.as_slice()) {
            b'x'
        } else if has(tick, self.dots.as_slice()) {
            b'!'
        } else if has(tick, self.pluses.as_slice()) {
            b'+'
        } else if tick == self.start {
            self.strokes.start
        } else if self.closed && tick == self.end {
            self.strokes.end
        } else {
            self.strokes.line
        }
    }
}

// Returns whether a tick is among these.
fn has(tick: u64, ticks: &[u64]) -> bool
    ensures { result ≡ has tick ticks.now }
{
    'ticks: for other in ticks {
        if tick == *other {
            return true;
        }
    }
    false
}

// Appends a byte `count` times.
pub(crate) fn push_times(out: &mut Vec<u8>, count: usize, byte: u8) -> Result<(), AllocError>
    ensures { OnOk result (out.new.items ≡ out.old.items ++ replicate count byte) }
{
    'times: for _i in 0..count {
        out.push(byte)?;
    }
    Ok(())
}
