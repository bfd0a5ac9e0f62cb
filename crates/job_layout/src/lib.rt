//! The layout of a job text: two spaces for each level, and one step on each line.
//!
//! `format_text` returns the text that `specs/Layout.antt` describes. This text spells the same job in the same format, and
//! each token keeps the comments before it, so formatting a formatted text changes nothing (`law_formatted`). The crate uses
//! `job_reader` for jobs and `job_tokens` for the text of a token.
#![tactic(auto)]

mod blocks;
mod comments;
mod fault;
mod formatting;
mod laws;
mod layout;
mod lines;
mod spaced;

pub use fault::FormatFault;
pub use formatting::format_text;
pub use laws::law_formatted;
