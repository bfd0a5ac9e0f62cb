ghost use Rattle.std.specs.Prelude.{◌≡◌, ◌≤◌, length, map};
ghost use Rattle.chart.specs.Columns.{log2, gap, gap_less, gap_less_to};
ghost use Rattle.chart.specs.HeldColumns.{column_of};

use crate::column::Column;
use basics::digit_count;

/// Returns the room from a tick to the next one that is shown, in characters: the number of its digits, one space, and the
/// logarithm to base 2, rounded down, of the ticks between them.
pub fn gap(tick: u64, next: u64) -> usize
    ensures { result ≡ gap tick next }
{
    digit_count(tick) + 1 + log2(next.saturating_sub(tick))
}

/// Returns the room from a tick to the next one with `less` characters less than `gap` returns, but at least one.
pub fn gap_less(less: usize, tick: u64, next: u64) -> usize
    ensures { result ≡ gap_less less tick next }
{
    gap(tick, next).saturating_sub(less).max(1)
}

/// Returns the room from a column to the first of those in `after`, as `gap_less` does, or 1 if `after` is empty.
pub fn gap_less_to(less: usize, column: &Column, after: &[Column]) -> usize
    ensures { result ≡ gap_less_to less (column_of column.now) (map column_of after.now) }
{
    let Some(next) = after.first() else {
        return 1;
    };
    gap_less(less, column.tick, next.tick)
}

// Returns the logarithm of a number to base 2, rounded down, and 0 for 0.
fn log2(n: u64) -> usize
    ensures value { result ≡ log2 n }
    ensures small { result ≤ 63 }
{
    if n == 0 {
        return 0;
    }
    n.ilog2() as usize
}
