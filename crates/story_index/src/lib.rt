//! An index over the events of a story: how each scope was entered, why it is cancelled, which tasks are running, and what each
//! did last; the part of a story that concerns one task.
//!
//! An index over the events of a story: how each scope and nursery was first entered, why it is cancelled, which tasks are
//! running, and what each task did last.
//!
//! The layer promises that an index over the events of a story, which is built in one pass, answers two questions in constant
//! time: how a scope or nursery was first entered (`entering_of` of `job_story/specs/Causes.antt`), and why it is cancelled
//! (`cause_of`), which is its deadline or the first event that cancelled it in the moment before the one from which it is
//! cancelled. Why an event of the job is set is answered in the same way.
//!
//! `Knows` of `specs/Knows.antt` says what an index knows of events. Each answer is proved for all tables and events that the
//! index knows, and `Causes::of` promises that the index knows the events that it reads. `LastEvents` and `Tasks` answer which
//! event is the last of a task, and whether a task has ended (`job_story/specs/Limit.antt`).
//!
//! The part of a story that concerns one task.
//!
//! The layer promises four things of the events of a story, the first three as `job_story/specs/Focus.antt` defines them. It
//! finds the tasks that concern a task, which are the task itself, each task that caused one of its cancellations, each that
//! caused one of theirs, and so on; the events of these tasks, in the order of the story; the first task whose label has a
//! given text; and the task whose label is nearest to a text (`specs/Nearest.antt`). The tasks that concern a task are found in
//! rounds: each round reads every event once and adds the tasks that caused a cancellation of a task of the set, until a round
//! adds none.
#![tactic(auto)]

mod causes;
mod exc;
mod kept;
mod lasts;
mod named;
mod notes;
mod rounds;
mod sign;
mod task_set;
mod tasks;
mod until;

pub use causes::{Causes, Entering};
pub use exc::is_cancellation;
pub use kept::of_tasks;
pub use lasts::LastEvents;
pub use named::{nearest_task, task_named};
pub use notes::put_first;
pub use rounds::concerned_tasks;
pub use sign::Cause;
pub use task_set::TaskSet;
pub use tasks::Tasks;
pub use until::events_until;
