//! The outcome of a job, as data and as a line, and what the events of its story say about a fault; the tables of faults and of
//! a sweep.
//!
//! What the events of a story say about a fault.
//!
//! The crate answers four questions about the events of a story, each exactly as `specs/Notes.antt` defines it: whether a
//! `raise` step raised an exception with some name; which tasks sleep forever; which tasks were cancelled in the middle of a
//! cleanup; and whether an exception with some name was lost, which means that it was raised, no handler handled an exception
//! with this name, and the root task did not end with one.
//!
//! Prints the outcome of a job with each of its faults.
//!
//! `table` returns the text of these outcomes, as `specs/Table.antt` defines it: the outcome of the job without a fault, a line
//! for each fault, in columns, and the counts. `denied_text` returns those of its lines that should make a build fail.
//!
//! Prints the outcome of a job for each value of one of its numbers.
//!
//! `sweep_table` returns the text of these values, as `specs/Sweeps.antt` defines it: the outcome of the job with its own
//! value, then a line for each group of neighbouring values with the same outcome, apart from ticks (`specs/Groups.antt`), and
//! then the counts.
#![tactic(auto)]

mod columns;
mod counts;
mod cut;
mod deny;
mod exc;
mod group;
mod groups;
mod job_outcome;
mod lasts;
mod line;
mod lines;
mod lost;
mod notes;
mod options;
mod outcome_text;
mod pieces;
mod sweep_counts;
mod sweep_lines;
mod value;

pub use columns::{printed_name, push_part};
pub use counts::{Counts, push_count, push_more};
pub use cut::cut_in_cleanup;
pub use deny::Deny;
pub use exc::push_sans;
pub use job_outcome::JobOutcome;
pub use lasts::sleeping_forever;
pub use line::Line;
pub use lines::{denied_text, table};
pub use lost::{is_lost, is_lost_so_far, is_raised};
pub use notes::{differs, push_job_outcome, push_names_note, push_not_tried};
pub use options::{Options, Untried};
pub use pieces::{push_left, push_right};
pub use sweep_lines::sweep_table;
pub use value::Value;
