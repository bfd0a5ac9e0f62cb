//! Cancel scopes: shields, deadlines, and from which tick a task sees a cancellation.
//!
//! A `ScopeTree` holds the cancel scopes of a program as Trio nests them. Each scope is opened inside a parent or as an
//! outermost scope, with or without a shield and with or without a deadline, and may be cancelled at any time. The tree
//! answers from which tick a task in a scope sees a cancellation, which is what a checkpoint asks, and which scope
//! catches the cancellation on its way out. Time is a count of ticks. A cancellation that is made in a tick is seen from
//! the next tick on.
//!
//! The layer promises that each open scope has a stack, that effective deadlines (`sight`) and exits are those of the
//! stack, that a call changes only the scope that it names, and that each scope whose effective deadline a cancellation
//! lowered is returned once by `take_changed`. It uses `slab`.
#![tactic(auto)]

mod scope_id;
mod store;
mod ticks;
mod tree;

pub use scope_id::ScopeId;
pub use ticks::{earlier, is_reached};
pub use tree::{ScopeTree, stacks_are_chains};
