ghost use Rattle.std.specs.Prelude.{◌≡◌, map};
ghost use Rattle.chart.specs.Columns.{fits_from, fits_less, less_for};
ghost use Rattle.chart.specs.HeldColumns.{column_of};

use crate::column::Column;
use crate::gaps::gap_less;
use basics::digit_count;

/// The greatest number of characters by which a gap is made smaller. No gap has more than 84 characters, so each has one then.
const MAX_LESS: usize = 83;

/// Returns by how many characters gaps are made smaller so that all columns fit into `room` characters: the least number that
/// suffices, or the one with which each gap is one character if none does. A gap is at least one character.
pub fn less_for(room: usize, columns: &[Column]) -> usize
    ensures { result ≡ less_for room (map column_of columns.now) }
{
    let mut more = MAX_LESS;
    let mut less = 0;
    'less: while more > 0 {
        if fits_less(less, room, columns) {
            return less;
        }
        more -= 1;
        less += 1;
    }
    less
}

/// Returns whether the columns fit into `room` characters with gaps that are `less` characters smaller, but at least one.
pub fn fits_less(less: usize, room: usize, columns: &[Column]) -> bool
    ensures { result ≡ fits_less less room (map column_of columns.now) }
{
    match columns.split_first() {
        Some((first, others)) => fits_from(less, room, first.tick, others),
        None => true,
    }
}

// Returns whether a tick and the columns after it fit, including the digits of the last one.
fn fits_from(less: usize, room: usize, tick: u64, after: &[Column]) -> bool
    ensures { result ≡ fits_from less room tick (map column_of after.now) }
{
    let mut left = room;
    let mut at = tick;
    'columns: for column in after {
        let wanted = gap_less(less, at, column.tick);
        if left < wanted {
            return false;
        }
        left -= wanted;
        at = column.tick;
    }
    digit_count(at) <= left
}
