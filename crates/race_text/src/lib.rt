//! How the tasks of one run of a job differ from those of another, apart from ticks; copies of one `start` that meet; the lines
//! of races, their table, and those that are denied.
//!
//! Compares the tasks of two runs, apart from ticks.
//!
//! The layer promises that `differences` returns each task for which the runs do not show the same (`specs/Differences.antt`):
//! how it ends, apart from the ticks in exceptions; and the lines that it borrowed, the scopes and nurseries that it left, the
//! events for which it waited, and what limiters and channels granted to it, in their order, apart from the exits of scopes with
//! a given name. And that `run_differences` does so for runs that may not have ended by a limit (`specs/Runs.antt`).
//!
//! Finds copies of one task that meet: tasks of one `start` with `over` or in a `repeat`, of which one cancels something while
//! something happens to another, or of which two do something to one limiter or channel.
//!
//! `meeting_of` returns the first such meeting among the events of a story, as `specs/Copies.antt` defines it. Copies of a task
//! have the same text, so changing the text cannot show whether an outcome depends on which of them acts first. Events are
//! compared by their ticks, also where a tick has rounds.
//!
//! The text that lists the places of a job where a hair changes the outcome.
//!
//! The layer promises that `race_table` returns the text of these lines, as `specs/Table.antt` defines it: each line that is
//! shown, in columns, followed by the counts; and that `race_denied` returns those lines without the counts.
#![tactic(auto)]

mod acts;
mod columns;
mod finding;
mod line;
mod meeting;
mod outcome;
mod runs;
mod same;
mod sights;
mod table;
mod tasks;

pub use columns::step_of;
pub use line::{Found, Line};
pub use meeting::{Meeting, meeting_of};
pub use outcome::push_outcome;
pub use runs::{ComparedRun, run_differences};
pub use table::{hairs_not_tried_in, race_denied, race_table, races_in};
pub use tasks::{Difference, differences};
