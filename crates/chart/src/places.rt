ghost use Rattle.std.specs.Prelude.{◌≡◌, map};
ghost use Rattle.chart.specs.Columns.{column_from, column_at, column_by_or, column_by, last_tick};
ghost use Rattle.chart.specs.HeldColumns.{column_of};

use crate::column::Column;

/// Returns the tick of the last column that is not after `tick`, at which something that happens at `tick` is shown. Returns the
/// tick of the first column if all are after `tick` itself if there are no columns. The columns are expected in order of ticks.
pub fn column_at(columns: &[Column], tick: u64) -> u64
    ensures { result ≡ column_at (map column_of columns.now) tick }
{
    let Some((first, others)) = columns.split_first() else {
        return tick;
    };
    column_from(first.tick, others, tick)
}

// Returns the same, where there is a column of the tick `before` in front of these.
fn column_from(before: u64, columns: &[Column], tick: u64) -> u64
    ensures { result ≡ column_from before (map column_of columns.now) tick }
{
    let mut found = before;
    'columns: for column in columns {
        if column.tick > tick {
            return found;
        }
        found = column.tick;
    }
    found
}

/// Returns the tick of the first column that is not before `tick`, at which something that holds from `tick` on begins to be
/// shown. Returns the tick of the last column if all are before `tick`, and 0 if there are no columns. The columns are expected
/// in order of ticks.
pub fn column_by(columns: &[Column], tick: u64) -> u64
    ensures { result ≡ column_by (map column_of columns.now) tick }
{
    let last = last_tick(columns);
    column_by_or(last, columns, tick)
}

// Returns the same, or `last` if all of these are before the tick.
fn column_by_or(last: u64, columns: &[Column], tick: u64) -> u64
    ensures { result ≡ column_by_or last (map column_of columns.now) tick }
{
    'columns: for column in columns {
        if tick <= column.tick {
            return column.tick;
        }
    }
    last
}

/// Returns the tick of the last column, or 0 if there is none.
pub fn last_tick(columns: &[Column]) -> u64
    ensures { result ≡ last_tick (map column_of columns.now) }
{
    match columns.last() {
        Some(column) => column.tick,
        None => 0,
    }
}
