//! Takes a job text and an input, and returns the outcome of the job with each fault, for each value of a number, or where
//! moving a step by a hair changes it, by several threads.
//!
//! Takes a job text and an input, and returns the outcome of the job with each fault.
//!
//! The layer promises that `fault_lines` returns a line for each fault of each waiting step of the text, in the order of their
//! places, and after them, if they are asked for, a line for each fault in a single copy or pass: the outcome, by the meaning,
//! of the text that the fault makes of the original text, or of the text in which that copy or pass is written out. The number
//! of workers changes no line. `commands` writes the table.
//!
//! Takes a job text and an input, and returns the outcome of the job for each value of one of its numbers.
//!
//! The layer promises that `sweep_values` returns the outcomes, by the meaning, of the text with each value in place of the
//! number that is meant; or why the text has no such number. The number of workers changes no outcome. `commands` writes the
//! sweep.
//!
//! Takes a job text and an input, and returns the places of the job on which its outcome depends by a hair.
//!
//! The layer promises that `race_lines` returns, by the meaning of the job: what the text in finer ticks shows that the
//! original text does not show; what each hair of each place changes of that, each once and in the order of places; and which
//! copies of one task meet. Or it says that the job does not end by the limit, or that its ticks cannot be made finer. The
//! number of workers changes no line. `commands` writes the table.
#![tactic(auto)]

mod comparing;
mod copies;
mod fault_work;
mod faults;
mod job_outcome;
mod missing;
mod moves;
mod nearest;
mod number;
mod original;
mod outcome;
mod parts;
mod race_work;
mod races;
mod summary;
mod sweeps;
mod trial;
mod values;

pub use faults::{FaultLines, MAX_EACH, fault_lines};
pub use job_outcome::{job_outcome_of_text, outcome_of_job};
pub use missing::Missing;
pub use races::{RaceAnswer, RaceLines, race_lines};
pub use summary::{Summary, summary_of};
pub use sweeps::{SweepAnswer, SweepValues, sweep_values};
