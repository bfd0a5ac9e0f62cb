//! Runs a job over an input, with the result of the job's meaning, or up to a limit.
//!
//! The layer promises that `run` returns the records of the one-thread meaning (`job_meaning`), for every number of workers,
//! every picker and every gate, or the limit exactly if the meaning ends later. `run_to_end` has no limit. `Runner` is a run
//! batch by batch: its tasks have their turns (`task_machine`), are kept in a task table (`task_table`), and the clock jumps
//! when every task is blocked. That its records are those of the meaning follows from the law of `run_refinement`.
#![tactic(auto)]

mod fault;
mod finished;
mod jumping;
mod limits;
mod objects_by_label;
mod recording;
mod runner;
mod running;
mod serving;
mod settings;
mod stopping;
mod waiting;

pub use fault::RunFault;
pub use finished::Run;
pub use job_meaning::{LAST_TICK, MAX_INPUT};
pub use limits::{MAX_LIMIT, MAX_WORKERS};
pub use runner::{Phase, Runner};
pub use running::{run, run_to_end};
pub use settings::Settings;
pub use task_machine::{Entry, ScopeFrom};
pub use task_table::{Forward, Outcome, Pick, Record, Reverse, Turn};
pub use workers::{Gate, NoGate};
