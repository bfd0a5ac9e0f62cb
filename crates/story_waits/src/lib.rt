//! Who waits for whom at limiters and channels: places in queues, whose doing it is that a task goes on, and deadlocks.
//!
//! The layer promises that `QueueNotes` has, for each event of a story in which a task joins a queue or goes on from one, what
//! `job_story/specs/Notes.antt` says of other tasks: the place of the task in the queue, and who gave the token back, sent the
//! part, or closed the channel. It sorts what is done to limiters and channels as these serve it, by moment and in the order of
//! records, and numbers it in one pass. It promises too that `find_deadlock` finds the first cycle of tasks that hold and wait for
//! the tokens of limiters with one token (`job_story/specs/Deadlock.antt`).
#![tactic(auto)]

mod deadlock;
mod groups;
mod moves;
mod note;
mod numbers;
mod object_kinds;
mod queue_notes;
mod queue_service;
mod records;
mod service;
mod turns;

pub use deadlock::{Wait, find_deadlock};
pub use note::Note;
pub use queue_notes::QueueNotes;
