ghost use Rattle.std.specs.Prelude.{◌≡◌, ◌≤◌, ◌+◌, ◌-◌, ◌==◌, ◌&&◌, map, min};
ghost use Rattle.chart.specs.HeldColumns.{column_of};
ghost use Rattle.svg.specs.Sheets.{room_to, next_place, place_from, is_step, is_even, is_linear};
ghost use Rattle.svg.specs.declared.layout.TheConstants.{FARTHEST};

use crate::layout::FARTHEST;
use basics::digit_count;
use chart::{Column, gap_less};

// Returns the room from a column to the first of those after it, in characters, if gaps are `less` characters smaller than with
// ample room, or 1 if there is none after it. It is never so small that the numbers above the two columns overlap.
fn room_to(less: usize, column: &Column, after: &[Column]) -> usize
    ensures { result ≡ room_to less (column_of column.now) (map column_of after.now) }
{
    let Some(next) = after.first() else {
        return 1;
    };
    (digit_count(next.tick) / 2 + 1).max(gap_less(less, column.tick, next.tick))
}

// Returns the distance of the column at a tick from the first of these, in characters.
pub(crate) fn place(less: usize, columns: &[Column], tick: u64) -> u64
    ensures value { result ≡ place_from less 0 (map column_of columns.now) tick }
    ensures bound { result ≤ 1000000 }
{
    let mut at = 0;
    let mut rest = columns;
    'columns: while let Some((first, others)) = rest.split_first() {
        if tick <= first.tick {
            return at;
        }
        at = next_place(less, at, first, others);
        rest = others;
    }
    at
}

// Returns the distance of the first of the columns after one that is so far from the first column, in characters.
pub(crate) fn next_place(less: usize, at: u64, column: &Column, after: &[Column]) -> u64
    requires { at ≤ 1000000 }
    ensures value { result ≡ next_place less at (column_of column.now) (map column_of after.now) }
    ensures bound { result ≤ 1000000 }
{
    nearest(at, room_to(less, column, after) as u64)
}

// Returns the distance with so much room more, but no greater one than the greatest.
fn nearest(at: u64, room: u64) -> u64
    requires { at ≤ 1000000 }
    ensures value { result ≡ min FARTHEST (at + room) }
    ensures bound { result ≤ 1000000 }
{
    at.saturating_add(room).min(FARTHEST)
}

// Returns whether the axis is linear: neighbouring columns are all equally far apart, in ticks and in room.
pub(crate) fn is_linear(less: usize, columns: &[Column]) -> bool
    ensures { result ≡ is_linear less (map column_of columns.now) }
{
    let Some((first, others)) = columns.split_first() else {
        return true;
    };
    let Some(second) = others.first() else {
        return true;
    };
    let ticks = second.tick.saturating_sub(first.tick);
    is_even(less, ticks, room_to(less, first, others), others)
}

// Returns whether each of these columns is so many ticks and so much room from the next.
fn is_even(less: usize, ticks: u64, room: usize, columns: &[Column]) -> bool
    ensures { result ≡ is_even less ticks room (map column_of columns.now) }
{
    let mut rest = columns;
    'columns: while let Some((first, others)) = rest.split_first() {
        if !is_step(less, ticks, room, first, others) {
            return false;
        }
        rest = others;
    }
    true
}

// Returns whether a column is so many ticks and so much room from the first of those after it, if there is one.
fn is_step(less: usize, ticks: u64, room: usize, column: &Column, after: &[Column]) -> bool
    ensures { result ≡ is_step less ticks room (column_of column.now) (map column_of after.now) }
{
    let Some(next) = after.first() else {
        return true;
    };
    is_apart(ticks, room, column, next, room_to(less, column, after))
}

// Returns whether two columns, with some room between them, are so many ticks and so much room apart.
fn is_apart(ticks: u64, room: usize, column: &Column, next: &Column, between: usize) -> bool
    ensures { result ≡ ((next.now.tick - column.now.tick == ticks) && (between == room)) }
{
    next.tick.saturating_sub(column.tick) == ticks && between == room
}
