//! Pickers; the ready tasks of a tick, and the order of their turns; the tasks of a run by their ids and by rows, and the records
//! of a run that is over.
//!
//! Trio runs the tasks that are ready as one batch, in an order of its own choice; here a picker chooses the order. While
//! a batch is current its requests are answered together, then each of its tasks has one turn, and what becomes ready
//! meanwhile is added to the next batch. `Live` holds the tasks themselves, under the ids that batches use.
//!
//! The layer promises that each task of a batch is returned once, as the picker picked, with the answer to its own
//! request, that no added task is lost, and that `Live` has under each id the value that was put there last. Taking the
//! first or the last of the tasks that are left takes constant time, any other logarithmic time in their number; a turn
//! takes no memory.
//!
//! The table of the tasks of a run: those that have not ended by their ids, and a row for each that was ever started.
//!
//! The layer promises that rows and ids agree, that nothing but the task in question changes when one is started, has its turn
//! or ends, and that the rows of a run that is over are listed depth first.
#![tactic(auto)]

mod batch;
mod entry;
mod halves;
mod live;
mod pick;
mod places;
mod record;
mod rows;
mod slots;
mod task_table;

pub use batch::ReadyBatch;
pub use entry::Call;
pub use live::Live;
pub use pick::{Forward, Pick, Reverse, Turn};
pub use record::{Outcome, Record};
pub use rows::{Ended, TaskRow, records_of};
pub use task_table::{Running, TaskTable};
