ghost use Rattle.std.specs.Prelude.{◌≡◌, ℕ, ◌^◌, ◌<◌, List, ◌∷◌, length, IfOk, OnOk, map, reverse};
ghost use Rattle.chart.specs.Columns.{columns_in, columns_of};
ghost use Rattle.chart.specs.HeldColumns.{column_of};

use crate::column::Column;
use crate::sorting::sort_ticks;
use std::alloc::{AllocError, Global};

/// Returns the columns for these ticks, which may be in any order, with one for each thing that happens. The result has each tick
/// once and in order, with the number of times that it was given. Returns `AllocError` if memory runs out.
pub fn columns_of(alloc: Global, ticks: &[u64]) -> Result<Vec<Column>, AllocError>
    ensures { IfOk result (λ columns. map column_of columns.items ≡ columns_of ticks.now) }
{
    let mut sorted = Vec::from_slice(alloc, ticks)?;
    sort_ticks(alloc, sorted.as_mut_slice())?;
    columns_in(alloc, sorted.as_slice())
}

// Returns the columns for these ticks, which are in order.
fn columns_in(alloc: Global, ticks: &[u64]) -> Result<Vec<Column>, AllocError>
    ensures { IfOk result (λ columns. map column_of columns.items ≡ columns_in ticks.now) }
{
    let mut columns = Vec::new(alloc);
    let mut left = ticks.len();
    'ticks: while left > 0 {
        left -= 1;
        count(&mut columns, ticks[left])?;
    }
    columns.reverse();
    Ok(columns)
}

// Counts one more thing that happens at a tick. The columns are in reverse order, and the tick is not later than any of theirs.
fn count(columns: &mut Vec<Column>, tick: u64) -> Result<(), AllocError>
    ensures { (ts : List ℕ) → length ts < 2 ^ 63 → columns_in ts ≡ reverse (map column_of columns.old.items)
        → OnOk result (reverse (map column_of columns.new.items) ≡ columns_in (tick ∷ ts)) }
{
    let Some(column) = columns.pop() else {
        columns.push(Column { tick, count: 1 })?;
        return Ok(());
    };
    if column.tick == tick {
        let count = column.count.saturating_add(1);
        columns.push(Column { tick, count })?;
        return Ok(());
    }
    columns.push(column)?;
    columns.push(Column { tick, count: 1 })?;
    Ok(())
}
