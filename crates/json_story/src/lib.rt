//! Labels, exceptions and a run's report as JSON; the events of a story, and the tasks that have not ended.
//!
//! A report as JSON: the values of exceptions, of a run's records and of a whole report, and their texts.
//!
//! The layer promises that `report_json` is the JSON text of a definition over a run's records (`Values`), in which every byte
//! of a label, a name or a line is written as in a report.
//!
//! A story as JSON: the values of its events and of the tasks that have not ended, and the document.
//!
//! The layer promises that `story_json` is the JSON text of a definition over a story's events and a table (`Stories`): each
//! event in the order of the story, with why a scope or nursery is cancelled, and what each task that has not ended by a limit
//! is doing.
#![tactic(auto)]

mod acts;
mod asks;
mod event;
mod exc;
mod found;
mod frequent;
mod happening;
mod known;
mod laws;
mod literal;
mod optional;
mod pieces;
mod quoted;
mod rows;
mod running;
mod story;
mod text;
mod ticks;
mod whole;

pub use exc::exc_value;
pub use laws::law_labels;
pub use pieces::{push_comma, push_first_member, push_key, push_member, push_value};
pub use story::story_json;
pub use text::{document, label_value, text_value};
pub use whole::report_json;
