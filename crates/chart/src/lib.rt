//! The rows of a chart (the time that each task, scope and nursery of a story takes), its columns, and its text.
//!
//! The rows of a chart: a bar for each task of a story, and below it one for each scope and nursery that the task entered.
//!
//! The layer promises that the bars which an index over the events of a story returns are those of `specs/Bars.antt`: when each
//! task starts and ends, when each scope and nursery is entered and left, and from which moment it is cancelled, if that comes
//! before it is left. A bar has no end if the events do not contain it, for example because it comes after a limit. `all_ticks`
//! returns the ticks at which something happens (`specs/Ticks.antt`).
//!
//! The columns of a chart: one for each tick at which something happens, with narrower gaps where there is little room.
//!
//! The layer promises that `columns_of` returns the columns of the ticks at which something happens, as `specs/Columns.antt`
//! defines them. The gap from a column to the next grows with the logarithm of the time between them; `less_for` returns by how
//! much gaps have to be smaller so that all columns fit. What happens at a tick is shown at its column (`column_at`).
//!
//! The text of a chart: when each task ran, which tasks were cancelled, which exceptions were raised, and which events were
//! set.
//!
//! The layer promises that `chart_text` returns the text of `specs/Text.antt`: a column for each tick at which something
//! happens, in one panel or several; a line for each bar, with the mark at each column that `specs/Marks.antt` defines; and no
//! line longer than the width, if that is at least 2.
#![tactic(auto)]

mod bar;
mod bars;
mod blocks;
mod cells;
mod column;
mod column_ticks;
mod fitting;
mod gaps;
mod index;
mod indexing;
mod kinds;
mod lines;
mod mark_kinds;
mod names;
mod numbers;
mod panels;
mod places;
mod row;
mod sorting;
mod text;
mod ticks;
mod widths;

pub use bar::Bar;
pub use column::Column;
pub use column_ticks::columns_of;
pub use fitting::{fits_less, less_for};
pub use gaps::{gap, gap_less, gap_less_to};
pub use index::StoryIndex;
pub use mark_kinds::{is_cross, is_dot};
pub use names::{push_name, push_outcome};
pub use places::{column_at, column_by, last_tick};
pub use text::chart_text;
pub use ticks::all_ticks;
pub use widths::{less_to_fit, longest_name, longest_outcome};
