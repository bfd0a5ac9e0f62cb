//! The tree of a job, as `job_reader` reads it from a text: names, strings, deadlines and steps.
//!
//! In contracts, these types are plain values: a name or a string is the list of its bytes, and a block is the list
//! of its steps (`specs/Tree.antt`). The crate uses no other crate of the product.
#![tactic(auto)]

mod deadline;
mod format;
mod limits;
mod name;
mod object;
mod room;
mod step;
mod text;
mod word;

pub use deadline::Deadline;
pub use format::Format;
pub use limits::{
    MAX_COPIES, MAX_NUMBER, MAX_PACE, MAX_PASSES, MAX_PLACES, MAX_STEPS, MAX_STEPS_OF_FORMAT_1,
    MAX_TOKENS,
};
pub use name::Name;
pub use object::{Ask, ObjectKind};
pub use step::{Body, Handler, Step};
pub use text::Text;
pub use word::{is_digit, is_letter, is_word_byte};
