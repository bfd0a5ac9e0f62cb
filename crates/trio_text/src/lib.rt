//! Prints a job as a Python program on plain Trio, as a start for real code.
//!
//! The contract of `program` says what the whole text is: the lines of each step, in order, in the functions of the tasks, and
//! what comes before and after them. Names that differ in the job differ in the program, and are none of its other names
//! (`laws.rt`). That these lines mean what the steps mean is tested, not proved (`tests/random/trio_export.py`). The crate uses
//! `job_reader` for the job.
#![tactic(auto)]

mod helpers;
mod laws;
mod names;
mod nested;
mod pieces;
mod place;
mod scopes;
mod sharing;
mod statements;
mod steps;
mod taken;
mod tasks;
mod texts;
mod uses;
mod words;
mod writing;

pub use laws::{
    law_classes_differ, law_exceptions_differ, law_functions, law_names_differ, law_names_free,
};
pub use writing::program;
