ghost use Rattle.std.specs.Prelude.{◌≡◌};
ghost use Rattle.race_text.specs.Lines.{is_some_found, is_shown, is_race_found, is_race, is_not_tried_found, is_not_tried, is_hair_not_tried};
ghost use Rattle.race_text.specs.LineViews.{found_held, line_held};

use crate::Difference;
use exceptions::Label;
use job_edits::{Hair, Moment};
use job_reader::JobFault;
use job_tree::Name;

/// The result of running a changed job text, compared with another one.
#[derive(Drop)]
pub enum Found {
    /// One of the two texts is refused, so that nothing was compared.
    NotTried(JobFault),
    /// The tasks that differ; none if the outcome is the same apart from ticks.
    Differs(Vec<Difference>),
}

impl Found {
    // Returns whether there is something to show.
    fn is_some(&self) -> bool
        ensures { result ≡ is_some_found (found_held self.now) }
    {
        match self {
            Found::NotTried(_) => true,
            Found::Differs(tasks) => !tasks.is_empty(),
        }
    }

    // Returns whether something differs.
    fn is_race(&self) -> bool
        ensures { result ≡ is_race_found (found_held self.now) }
    {
        match self {
            Found::NotTried(_) => false,
            Found::Differs(tasks) => !tasks.is_empty(),
        }
    }

    // Returns whether nothing was compared.
    fn is_not_tried(&self) -> bool
        ensures { result ≡ is_not_tried_found (found_held self.now) }
    {
        matches!(self, Found::NotTried(_))
    }
}

/// A line of the table: a job with one of its places moved by a hair, or two copies that meet. Places are those of the author's
/// text, as line and column, counted from 1.
#[derive(Drop)]
pub enum Line {
    /// The job in finer ticks, compared with the job as it is.
    InFinerTicks(Found),
    /// One place moved by a hair, compared with the job in finer ticks.
    Moved {
        /// The line of the place.
        line: usize,
        /// The column of the place, in bytes.
        column: usize,
        /// What is at that place.
        moment: Moment,
        /// The direction in which it is moved.
        hair: Hair,
        /// The result of running the changed text.
        found: Found,
    },
    /// Two copies of one `start` with `over` or in a `repeat` that meet, and cannot be moved apart in the text.
    Copies {
        /// The line of the `start`.
        line: usize,
        /// The column of the `start`, in bytes.
        column: usize,
        /// The name of the tasks that it starts.
        name: Name,
        /// The number of tasks that it starts at once, or `None` if it has no `over`.
        count: Option<u64>,
        /// The copy that cancels something, or does something to a limiter or channel.
        one: Label,
        /// The copy to which something happens within a hair, or which does something to the same limiter or channel.
        other: Label,
        /// The tick at which they meet, in the author's ticks.
        tick: u64,
    },
}

impl Line {
    /// Returns whether the line is shown: something differs, nothing was compared, or copies meet.
    pub fn is_shown(&self) -> bool
        ensures { result ≡ is_shown (line_held self.now) }
    {
        match self {
            Line::InFinerTicks(found) | Line::Moved { found, .. } => found.is_some(),
            Line::Copies { .. } => true,
        }
    }

    // Returns whether the line is a race.
    pub(crate) fn is_race(&self) -> bool
        ensures { result ≡ is_race (line_held self.now) }
    {
        match self {
            Line::InFinerTicks(found) | Line::Moved { found, .. } => found.is_race(),
            Line::Copies { .. } => true,
        }
    }

    // Returns whether nothing was compared.
    pub(crate) fn is_not_tried(&self) -> bool
        ensures { result ≡ is_not_tried (line_held self.now) }
    {
        match self {
            Line::InFinerTicks(found) | Line::Moved { found, .. } => found.is_not_tried(),
            Line::Copies { .. } => false,
        }
    }

    // Returns whether the line is a hair with which nothing was compared.
    pub(crate) fn is_hair_not_tried(&self) -> bool
        ensures { result ≡ is_hair_not_tried (line_held self.now) }
    {
        match self {
            Line::Moved { found, .. } => found.is_not_tried(),
            Line::InFinerTicks(_) | Line::Copies { .. } => false,
        }
    }
}
