//! The other commands: `fmt` and `scale`; `chart`; `faults`, `sweep` and `races`; `run`, `explain` and `lint` with `--json`;
//! the outputs of a feed that `test` compares.
//!
//! Takes a job text, and returns its formatted text: `format`; or finds where the text differs from its formatted text:
//! `check_format`; or returns the text with its ticks multiplied: `scaled_text`.
//!
//! The bytes that `format` returns are the formatted text of the job that the text spells, or the line of its refusal;
//! `check_format` finds the first place at which the text differs; and what `scaled_text` returns is a job text.
//!
//! A job text and an input in, one JSON document out: `report_document` and `story_document`.
//!
//! The layer promises that the bytes that `report_document` returns are the report of the job's one-thread meaning as JSON, and
//! those of `story_document` its story, or the refusal that the meaning names, for every job text, input, number of workers and
//! order of picks.
//!
//! `chart`, which takes a job text and an input, and returns the chart of the run.
//!
//! The layer promises that the bytes that `chart` returns are the chart of the job's one-thread meaning, as text or as an SVG
//! document that is well formed, or the refusal that the meaning names, for every job text, input, number of workers and order
//! of picks. A job that ends later than the limit is drawn up to the limit, with open ends.
//!
//! Takes a job text and an input, and returns the table of `faults`, `sweep` or `races`, as a text or as one JSON document; or
//! the warnings of `lint` as one JSON document.
//!
//! The layer promises that the bytes are the table, in the form that is asked for, of what the job's one-thread meaning says of
//! each line; or that they are the refusal that the text's meaning names, or the limit by which the job does not end. The
//! number of workers changes no byte.
//!
//! What is needed to test a feed that was kept with its outputs: the outputs of a job text over an input, the names that a job
//! text gives, and whether an expectation is met.
//!
//! The layer promises that `output_of` and `sweep_of` return the bytes that the command in question writes, for every number of
//! workers, by that command's own definitions; that `given_names` returns the names after the keywords of `specs/Names.antt`;
//! and that `meets` returns what the lines of the report and the story, or the verdicts of `races` and `faults`, say of an
//! expectation (`specs/Mets.antt`).
#![tactic(auto)]

mod about;
mod answers;
mod chart_form;
mod charting;
mod checking;
mod denying;
mod difference;
mod drawing;
mod explaining;
mod faulting;
mod form;
mod format_verdict;
mod formatting;
mod linting;
mod matching;
mod meeting;
mod met;
mod names;
mod outputs;
mod racing;
mod refusing;
mod scaling;
mod serving;
mod sweep_words;
mod sweeping;
mod verdict;
mod writing;

pub use answers::{past_limit, refusal};
pub use chart_form::ChartForm;
pub use charting::chart;
pub use checking::check_format;
pub use explaining::story_document;
pub use faulting::faults;
pub use form::Form;
pub use format_verdict::{FormatCheck, FormatVerdict};
pub use formatting::format;
pub use job_layout::{FormatFault, format_text};
pub use linting::lints_json;
pub use meeting::meets;
pub use met::Met;
pub use names::{given_after, given_names};
pub use outputs::Output;
pub use racing::races;
pub use scaling::{ScaleFault, scaled_text};
pub use serving::report_document;
pub use sweep_words::sweep_of;
pub use sweeping::sweep;
pub use verdict::{FaultsVerdict, LintsVerdict, RacesVerdict, SweepVerdict};
pub use writing::output_of;
