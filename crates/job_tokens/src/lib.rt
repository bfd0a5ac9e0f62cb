//! The tokens of a job text: words, numbers, strings and marks, each with its place, and their canonical text.
//!
//! `lex` returns the tokens of a text exactly as `specs/Lexing.antt` defines them, and the place of the first byte
//! from which no token can be read. The crate uses `job_tree` for names and strings.
#![tactic(auto)]

mod blanks;
mod canon;
mod comments;
mod lexing;
mod number;
mod run;
mod string;
mod token;
mod word;

pub use blanks::{ends_line, has_comments, is_blank};
pub use canon::push_canon;
pub use comments::{skip_token, split_line, split_separator};
pub use lexing::{Lexed, lex};
pub use string::is_plain;
pub use token::{Mark, Shape, Token};
