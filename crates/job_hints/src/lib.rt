//! Hints for the author of a refused job text: what a job has in place of what was written.
//!
//! A hint is given for the bytes of a text (`src/by_bytes.rt`), for a word of another language or library (`src/words.rt`,
//! `src/shared.rt`), for a token that the grammar does not allow (`src/by_grammar.rt`), and for a keyword that is nearly spelled
//! (`src/nearness.rt`). Each is defined in `specs/`. `refusal_text` finds the place and the tokens around it, and prints the hint.
#![tactic(auto)]

mod advice;
mod block;
mod by_bytes;
mod by_grammar;
mod heads;
mod nearness;
mod number;
mod python;
mod shared;
mod words;

pub use advice::Advice;
pub use block::BlockAdvice;
pub use by_bytes::{has_order_mark, lexical_advice, version_advice};
pub use by_grammar::{keyword_in, syntax_advice};
pub use nearness::near_keyword;
pub use number::{NumberAdvice, number_advice};
pub use python::PythonSyntax;
pub use shared::ObjectWord;
pub use words::{OtherWord, TrioWord, word_advice};
