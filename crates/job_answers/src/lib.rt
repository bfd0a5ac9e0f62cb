//! `serve`, `check`, `upgrade`, `explain`: takes a job text and an input, and writes a report or a refusal, or returns a story;
//! `read_whole`.
//!
//! A job text and an input in, a report out: `serve`, `check`, `upgrade`, and what a program that calls them needs.
//!
//! The layer promises the product's headline, as the contract of `serve`: for every job text, input, number of workers and
//! order of picks, the bytes written are the report of the job's one-thread meaning over that input, or the refusal which that
//! meaning names, and every line shown is the slice of the input at its stated place.
//!
//! `explain`, which takes a job text and an input, and returns the story of the run.
//!
//! The layer promises that the bytes that `explain` returns are the text of the story of the job's one-thread meaning, or the
//! refusal that the meaning names, for every job text, input, number of workers and order of picks. A job that ends later than
//! the limit has its story up to the limit, with what each task is doing that has not ended. `story_of` returns this
//! story, for the layers that show it in another form.
#![tactic(auto)]

mod about;
mod checking;
mod explaining;
mod lines;
mod meaning;
mod read;
mod running;
mod serving;
mod story_verdict;
mod table;
mod telling;
mod text;
mod verdict;

pub use checking::{check, upgrade};
pub use explaining::explain;
pub use job_report::{
    Answer, MemOut, Out, PutFault, Question, SendFault, WriteOut, send, send_answer,
};
pub use job_runner::{Forward, Gate, MAX_INPUT, NoGate, Pick, Reverse, Settings, Turn};
pub use lines::{past_limit, refusal};
pub use meaning::{Ending, Story, story_of};
pub use read::{ReadFault, read_whole};
pub use running::running_at_limit;
pub use serving::{report_answer, serve};
pub use story_verdict::StoryVerdict;
pub use table::table_of;
pub use verdict::{CheckVerdict, ServeFault, Verdict};
