//! The tests of the crates `job_runner`, `job_report`, `job_lint`, `job_answers`, `commands`, `trials`,
//! `commands`, `expect_text`, `refusal_text` and `cli`, and of what charts and races are made of (`chart`,
//! `chart`, `job_edits`, `race_text`), through what these make public.
//!
//! They show what no clause says: that the reports of worked jobs, worked out by hand, are those of the definitions; the results
//! for command lines and refused texts; the results when readers and writers fail; and, for the layers below too, that a call
//! that was refused memory returns its result when it is made again.
#![tactic(auto)]

#[cfg(test)]
mod bars;
#[cfg(test)]
mod batch_by_batch;
#[cfg(test)]
mod calls_made_again;
#[cfg(test)]
mod chart_texts;
#[cfg(test)]
mod charts;
#[cfg(test)]
mod command_words;
#[cfg(test)]
mod event_reports;
#[cfg(test)]
mod fault_tables;
#[cfg(test)]
mod finer_ticks;
#[cfg(test)]
mod fixtures;
#[cfg(test)]
mod formatting;
#[cfg(test)]
mod job_sizes;
#[cfg(test)]
mod json_documents;
#[cfg(test)]
mod large_jobs;
#[cfg(test)]
mod lint_warnings;
#[cfg(test)]
mod meetings;
#[cfg(test)]
mod nested_jobs;
#[cfg(test)]
mod orders_and_workers;
#[cfg(test)]
mod race_tables;
#[cfg(test)]
mod readers_and_writers;
#[cfg(test)]
mod refusal_texts;
#[cfg(test)]
mod refusals;
#[cfg(test)]
mod reports;
#[cfg(test)]
mod rounds;
#[cfg(test)]
mod sharing_reports;
#[cfg(test)]
mod snapshots;
#[cfg(test)]
mod stories;
#[cfg(test)]
mod story_events;
#[cfg(test)]
mod sweep_tables;
#[cfg(test)]
mod upgrades;
#[cfg(test)]
mod worked_jobs;
