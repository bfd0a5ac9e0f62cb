//! The text of a report, questions and answers, and sending an answer to a writer.
//!
//! The layer promises that `report` is the text of a run's records, and that `send` stops only if the writer
//! failed. It uses `job_runner`.
#![tactic(auto)]

mod answer;
mod escape;
mod limits;
mod mem_out;
mod out;
mod question;
mod rows;
mod text;
mod write_out;

pub use answer::{Answer, send_answer};
pub use limits::MAX_FAILURES;
pub use mem_out::MemOut;
pub use out::{Out, PutFault, SendFault, send};
pub use question::Question;
pub use text::report;
pub use write_out::WriteOut;
