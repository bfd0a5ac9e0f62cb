//! Explains a refused job text to the user: `refusal_message`.
//!
//! The message is the place, a sentence, the line of the job text with a caret under the place, and a hint where there is one.
//! Each of them is defined over the text and its tokens (`specs/Explaining.antt`, `specs/Sentences.antt`,
//! `specs/Hinting.antt`). The crate uses `job_tokens` and `job_syntax` for the tokens of a text and the place where they leave
//! the grammar, and `job_hints` for what a job has in place of what was written.
#![tactic(auto)]

mod expecting;
mod explaining;
mod findings;
mod hinting;
mod lexed_text;
mod position;
mod scanning;
mod scopes;
mod sentences;
mod size;

pub use explaining::{message_at, pointed_message, refusal_message};
pub use position::Position;
