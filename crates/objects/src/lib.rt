//! Limiters and channels: what is asked of them, and how they serve it.
//!
//! An `Object` is a limiter, as Trio's `CapacityLimiter`, or a channel of parts of an input, as Trio's memory channel. It serves what
//! is done to it (`Operation`) one after the other, first come, first served, and tells what it grants by that (`Given`). A task that
//! waits has a `Ticket`. One that leaves the queue, since it is cancelled, is not taken out of it: when its ticket comes to the head,
//! it is passed over, since `Queues` knows that it waits no more. So to leave costs nothing, however long the queue is.
//!
//! What an object does is what the definitions say (`specs/Limiters.antt`, `specs/Channels.antt`), whose laws say what people rely on.
#![tactic(auto)]

mod channel;
mod given;
mod laws;
mod limiter;
mod object;
mod ticket;

pub use given::{Given, Grant};
pub use laws::{law_channels, law_limiters};
pub use object::{Object, Operation};
pub use ticket::{Queues, Ticket};
