//! Worker threads that compute a batch of requests, each exactly once; gates; work on each of some items by several threads.
//!
//! The numbers of a batch of requests, drawn one by one by several threads.
//!
//! A batch has a number of requests, numbered from 0, and a number of tickets. The holder of a ticket draws the next number
//! with one `fetch_add` on one shared word, and gets `None` once when no number is left. For every schedule, each number is
//! drawn by exactly one ticket, once. This is stated when all tickets are returned and the claims are closed. There is no lock
//! and no waiting, and only `Claims::new` allocates.
//!
//! Worker threads that compute the requests of a batch.
//!
//! The layer promises that `work` answers each request as its kernel does (`input_lines`), in the order of the requests, for
//! every number of workers and every gate. The workers draw the numbers of the requests, so that no worker waits
//! while a request is left.
//!
//! Work of one kind on each of a list of items, by several threads, with each answer at the index of its item.
//!
//! The layer promises that `answers_for` returns the answer of a `Work` for each item, in the order of the items, for every
//! number of workers and every gate. The items are split among the threads, and each thread writes into slots of its own.
#![tactic(auto)]

mod batch;
mod bench;
mod gate;
mod limits;
mod rule;
mod slot;
mod slots;
mod work_items;
mod worker;
mod worker_state;
mod working;

pub use batch::Claims;
pub use bench::Bench;
pub use gate::{Gate, NoGate};
pub use input_lines::Request;
pub use limits::MAX_REQUESTS;
pub use slot::{Content, Slot};
pub use slots::answers_for;
pub use work_items::Work;
pub use worker::Pass;
pub use working::work;
