//! Tasks and what they share, and a task's turn.
//!
//! A `Task` holds its unfinished blocks, the cancel scopes and events that it opened, innermost last, and what it noted. A
//! `World` holds the clock, the moment, the cancel scopes with their labels, the events, the nurseries, and what was not taken yet:
//! the started tasks, the events that were set, and what was done to limiters and channels. A task that is woken (`Wake`) has a
//! turn: it runs until it blocks or ends (`Stop`).
//!
//! The layer promises that a label belongs to the scope or event that was entered with it until that is left, that a name finds
//! the innermost scope, or event, of that name, that a call of the world changes only the parts that it names, and that a turn
//! does to the task and the world what a turn of the definitions does (`turn_semantics`). It uses the scope tree, the book of
//! nurseries, and the jobs whose steps it borrows.
#![tactic(auto)]

mod block_entries;
mod boxing;
mod cancelling;
mod entering;
mod entry;
mod events;
mod exiting;
mod frame;
mod labels;
mod laws;
mod leaving;
mod pausing;
mod repeating;
mod running;
mod serving;
mod sharing;
mod starting;
mod stop;
mod task;
mod trying;
mod turning;
mod waiting;
mod waking;
mod world;

pub use boxing::{box_exc, unbox_exc};
pub use entry::{Entry, ScopeFrom};
pub use laws::law_places;
pub use serving::{Act, ObjectAct};
pub use stop::{ObjectRequest, Stop, Wake};
pub use task::Task;
pub use world::World;
