//! Parts of a borrowed buffer, their lines and cuts; searches and counts over the lines of a part.
//!
//! Line-aligned parts of a borrowed buffer: ranges, their lines and their cuts. Nothing is copied.
//!
//! The layer promises that a part is a range of its buffer that starts where a line starts, that the cuts of a part joined in
//! order are the part, and that `lines` returns the lines of the range in order, each with its place in the buffer.
//! `specs/Lines.antt` defines a line, and `specs/Cuts.antt` where a cut begins and ends.
//!
//! Kernels: the questions that a task asks of the lines of its part. Each answer is computed only from the part.
//!
//! The layer promises that an answer's lines are the lines of the part's buffer that `specs/Kernels.antt` defines, in order,
//! each with its place and its bytes.
#![tactic(auto)]

mod answers;
mod contains;
mod count;
mod cuts;
mod find;
mod head;
mod kernel;
mod laws;
mod line;
mod lines;
mod longest;
mod matching;
mod need;
mod newlines;
mod part;
mod request;

pub use answers::Answer;
pub use cuts::Cuts;
pub use kernel::{Kernel, answer};
pub use laws::{cuts_keep_bytes, cuts_keep_lines, cuts_meet};
pub use line::{Line, Lines};
pub use lines::FoundLines;
pub use part::Part;
pub use request::Request;
