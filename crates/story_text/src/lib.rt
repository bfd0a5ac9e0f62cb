//! The text of a story.
//!
//! The layer promises that `in_order` sorts events into the order of a story, that `kept_text` returns the text of selected
//! events, and that `kept_text_to` returns that of a story up to a limit, with what each task is doing that has not ended by
//! then. The texts are definitions of `job_story` (`specs/Sentences.antt`, `specs/Limit.antt`). It uses the events of
//! `job_story`, and `story_index` for how each scope was entered and why it is cancelled.
#![tactic(auto)]

mod answers;
mod asks;
mod deadlock;
mod known;
mod label;
mod limit;
mod lines;
mod order;
mod queue_notes;
mod sentences;
mod shown_story;
mod ticks;

pub use known::Known;
pub use limit::{kept_text_to, standing_text};
pub use lines::kept_text;
pub use order::in_order;
pub use shown_story::ShownStory;
