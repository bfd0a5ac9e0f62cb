//! Labels, exceptions, groups, splits, and their texts.
//!
//! Exceptions and exception groups (PEP 654): labels, leaves, groups, and the split by a name or by `Cancelled`.
//!
//! The layer promises that the contracts of the layers above see an exception as a tree (`specs/Exceptions.antt`).
//!
//! Labels and exceptions as text.
//!
//! The layer promises that its functions append the text of a label, of the origin of a group, of an exception, and of how a
//! task ended with an exception (`specs/Texts.antt`). Every output of the program prints these with this layer, so a name has one
//! text in reports, stories and charts.
#![tactic(auto)]

mod copy;
mod exc;
mod exc_text;
mod label;
mod label_text;
mod leaves;
mod wanted;

pub use exc::{Exc, Parts, Whose};
pub use exc_text::{push_exc, push_raised, push_whose};
pub use label::Label;
pub use label_text::push_label;
pub use leaves::{group, holds_cancelled, split};
pub use wanted::Match;
