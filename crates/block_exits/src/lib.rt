//! Which exception leaves a block: a scope or nursery that may catch, a handler that raises, and a cleanup;
//! and the names of the exceptions that limiters and channels raise.
//!
//! The layer promises that its functions return what the rules of `job_meaning` (`specs/Walk.antt`) say. A run of a job
//! (`task_machine`) and a walk over its tree (`job_story`) both leave their blocks with it. It uses the exceptions of
//! `exceptions`.
#![tactic(auto)]

mod exits;
mod kind;
mod names;

pub use exits::{Left, exc_after, handler_exc, left_with, outcome_after};
pub use kind::Kind;
pub use names::{closed_resource, deadlock, end_of_channel};
