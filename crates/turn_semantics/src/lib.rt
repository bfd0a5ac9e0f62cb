//! What one turn of a task does: its steps one at a time, and what is promised of them. A turn is all that a task does
//! at once until it blocks. It does nothing at run time.
//!
//! The layer promises that each step, each wake and each turn leave the result of the task unchanged, for every table that agrees
//! with the moments of cancellation of the world, and says what they do, begin and leave (`specs/Turned.antt`). It uses the
//! definitions of what a job means and of a task's rest. A program whose turns keep that promise has the result that the job
//! means (`interleavings`).
#![tactic(auto)]

mod laws;

pub use laws::{law_cancelled_from, law_names, law_step, law_turn};
