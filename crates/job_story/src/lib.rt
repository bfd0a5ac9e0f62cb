//! Definitions and laws of the story of a job by two tables, among them that it is true; its events, computed in one walk over
//! the job's tree, and a table by labels.
//!
//! The story of a run: what happened to each task, in which tick and why.
//!
//! The layer defines the story of a job by two tables (`specs/Tell.antt`): from which moment each label is cancelled, and what
//! limiters and channels grant. It is the walk of `job_meaning` with a story in place of the log. The layer also defines the text
//! of a story (`specs/Sentences.antt`, `specs/Limit.antt`). It promises that the story by settled tables is true: with everything
//! erased that a log does not contain, it is the log of the job's meaning (`specs/Laws.antt`). At run time the crate has only the
//! types of the events and the table.
//!
//! Lists the events of a job's run over an input, given the moment from which each scope and nursery is cancelled, and each
//! event of the job set, and what its limiters and channels granted.
//!
//! `tell` returns exactly the events of the story that `job_story` defines, in the order of the walk. It needs no queue and no
//! timers, since all this is given: it walks the job's tree once, follows each task from its start to its end before it
//! continues with the task that started it, and appends every event when it reaches it. An error anywhere in the crate is a
//! failed allocation.
#![tactic(auto)]

mod asks;
mod block;
mod cancelled_from;
mod event;
mod excs;
mod here;
mod kinds;
mod laws;
mod leaves;
mod notes;
mod own;
mod places;
mod progress;
mod root;
mod stack;
mod stretch;
mod waits;
mod walk;

pub use block_exits::Kind;
pub use cancelled_from::CancelledFrom;
pub use event::{Asked, During, Event, Happening, Range, Span, What};
pub use laws::{
    law_blame, law_cancelled_from_of_meaning, law_causes, law_focus, law_nesting, law_story,
    law_waking,
};
pub use root::tell;
