//! Probable mistakes in a job, each with its place.
//!
//! `lints` finds in a job exactly what a definition over the tree of the job finds (`specs/Warnings.antt`): steps that never
//! run, cleanups that wait without a shield or that raise, shields in which nothing outside can cancel a wait, scopes that
//! nothing cancels, handlers of exceptions that nothing raises, events that nothing sets or waits for, limiters and channels
//! that are not used or may block tasks for ever, and cancellations that come later than in Trio. Each place is that of the
//! keyword in the text which the warning is about (`specs/Openings.antt`, `laws.rt`). The crate uses `job_reader` for the job that
//! a text spells and `job_tokens` for the places.
#![tactic(auto)]

mod around;
mod kinds;
mod laws;
mod linting;
mod opened;
mod opening;
mod own;
mod sentences;
mod sharing;
mod sought;
mod walk;
mod warning;

pub use laws::{law_keywords_have_places, law_warnings_stand_at_keywords};
pub use linting::lints;
pub use sentences::sentence;
pub use warning::{Lint, Warning};
