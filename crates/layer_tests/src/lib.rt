//! Tests of the layers below the runner, each through its public calls.
//!
//! There is nothing but tests here. They are in a crate of their own, so that the layers are proved once, and the tests once
//! over their contracts. A module tests one layer, and its first line says what it tests; `fixtures` has what several share.
#![tactic(auto)]

#[cfg(test)]
mod batches;
#[cfg(test)]
mod checks;
#[cfg(test)]
mod claims;
#[cfg(test)]
mod clocks;
#[cfg(test)]
mod deadlines;
#[cfg(test)]
mod exits;
#[cfg(test)]
mod fixtures;
#[cfg(test)]
mod grammar;
#[cfg(test)]
mod groups;
#[cfg(test)]
mod kernels;
#[cfg(test)]
mod names;
#[cfg(test)]
mod nurseries;
#[cfg(test)]
mod parts;
#[cfg(test)]
mod queues;
#[cfg(test)]
mod scopes;
#[cfg(test)]
mod sharing;
#[cfg(test)]
mod syntax;
#[cfg(test)]
mod task_tables;
#[cfg(test)]
mod tasks;
#[cfg(test)]
mod ticks_and_rounds;
#[cfg(test)]
mod tokens;
#[cfg(test)]
mod worker_threads;
