//! A run of a job in turns, in any interleaving of its tasks, has the result that the job means. It does nothing at run
//! time.
//!
//! The layer defines what holds of all tasks of a run together for each settled table (`specs/Interleaving.antt`), and the runs
//! themselves: a turn is any that keeps the promise of `turn_semantics` (`specs/Runs.antt`). It promises that each run agrees
//! with the table, that one whose tasks have all ended has the result that the job means, and that it gets there
//! (`specs/Laws.antt`).
#![tactic(auto)]

mod laws;

pub use laws::{law_grants, law_runs};
