//! Which members a nursery waits for, and the exception group that it raises, as in Trio and PEP 654.
//!
//! A `NurseryBook` holds the open nurseries of a program as Trio's `open_nursery` makes them. The members of a nursery
//! are its body and the children started in it, and it ends when the last of them ends. It then raises one group of its
//! members' exceptions, that of the body first and those of the children in the order of their starts. It raises nothing
//! if no member raised.
//!
//! The layer promises that each call changes only the nursery that it names, and that the group is in that order whatever
//! the order in which the members ended. It uses `exceptions`, the ids of `cancel_scopes` and `clock`, and `slab`.
#![tactic(auto)]

mod book;
mod children;
mod ending;
mod nursery_id;

pub use book::NurseryBook;
pub use nursery_id::{ChildIndex, NurseryId};
