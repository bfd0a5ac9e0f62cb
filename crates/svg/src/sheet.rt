ghost use Rattle.std.specs.Prelude.{◌≡◌, ◌≤◌};
ghost use Rattle.job_meaning.specs.Clocks.{tick_of};
ghost use Rattle.story_text.specs.Known.{clock_in};
ghost use Rattle.svg.specs.Sheets.{x_from, x_at, x_of, x_by, outcome_x, y_of, middle_of};

use crate::axis::place;
use crate::layout::{LEFT, LETTER, MAX_NAME, MAX_ROWS, PLACE, ROW, TOP};
use chart::{Column, column_at, column_by, last_tick};
use job_meaning::Clock;
use story_text::Known;

// What all parts of a drawing depend on.
#[derive(Clone, Copy)]
pub(crate) struct Sheet<'s, 'k, 'e> {
    // The length of the longest name of a row.
    pub names: usize,
    pub columns: &'s [Column],
    // By how many characters gaps are smaller than with ample room.
    pub less: usize,
    // The clock of the story's moments, by which the titles are written too.
    pub clock: Clock,
    pub known: &'s Known<'k, 'e>,
    ghost counts: { clock ≡ clock_in known.now },
}

impl<'s, 'k, 'e> Sheet<'s, 'k, 'e> {
    ghost use Rattle.svg.specs.Held.{sheet_held};

    // Returns the x coordinate at this distance from the first column, in pixels.
    pub(crate) fn x_from(&self, at: u64) -> u64
        requires { at ≤ 1000000 }
        ensures value { result ≡ x_from (sheet_held self.now) at }
        ensures bound { result ≤ 100000000 }
    {
        let names = self.names.min(MAX_NAME) as u64;
        LEFT + LETTER * (names + 2) + PLACE * at
    }

    // Returns the x coordinate of a column, in pixels.
    pub(crate) fn x_at(&self, tick: u64) -> u64
        ensures value { result ≡ x_at (sheet_held self.now) tick }
        ensures bound { result ≤ 100000000 }
    {
        self.x_from(place(self.less, self.columns, tick))
    }

    // Returns the x coordinate at which something that happens in a moment is shown, in pixels.
    pub(crate) fn x_of(&self, moment: u64) -> u64
        ensures value { result ≡ x_of (sheet_held self.now) moment }
        ensures bound { result ≤ 100000000 }
    {
        self.x_at(column_at(self.columns, self.tick_of(moment)))
    }

    // Returns the x coordinate at which something that holds from a moment on begins to be shown, in pixels.
    pub(crate) fn x_by(&self, moment: u64) -> u64
        ensures { result ≡ x_by (sheet_held self.now) moment }
    {
        self.x_at(column_by(self.columns, self.tick_of(moment)))
    }

    // Returns the x coordinate of the outcomes, in pixels.
    pub(crate) fn outcome_x(&self) -> u64
        ensures { result ≡ outcome_x (sheet_held self.now) }
    {
        self.x_at(last_tick(self.columns)) + LETTER * 2
    }

    // Returns the tick of a moment.
    pub(crate) fn tick_of(&self, moment: u64) -> u64
        ensures { result ≡ tick_of (sheet_held self.now).clock moment }
    {
        self.clock.tick_of(moment)
    }
}

/// Returns the y coordinate at which a row of a drawing begins, in pixels: rows after the first `MAX_ROWS` are not drawn.
pub fn y_of(row: usize) -> u64
    ensures value { result ≡ y_of row }
    ensures bound { result ≤ 48044 }
{
    TOP + ROW * (row.min(MAX_ROWS) as u64)
}

// Returns the middle of a row, in pixels from the top.
pub(crate) fn middle_of(row: usize) -> u64
    ensures { result ≡ middle_of row }
{
    y_of(row) + 12
}
