//! Compares the texts that a program writes with kept texts and with expectations.
//!
//! The layer promises three things. `first_difference` finds the first line at which a text differs from the one that was kept,
//! and returns `None` only if the two are the same. `first_match` finds the first line of a text that matches a pattern, in which
//! `*` matches any bytes and blanks count as `specs/Patterns.antt` says, in time linear in the text and, for each line, in the
//! pattern. `read_expectation` reads a line of a `.expect` file, as `specs/Expectations.antt` defines it; it refuses a pattern
//! only if the pattern matches no line that begins as `specs/Beginnings.antt` says. It uses `memchr` for searches, `outcomes` for
//! the kinds that `faults` can deny, and `job_tree` for names.
#![tactic(auto)]

mod beginnings;
mod differences;
mod expectations;
mod laws;
mod matching;
mod parts;
mod pieces;
mod squeezing;
mod words;

pub use differences::{Difference, first_difference};
pub use expectations::{ExpectLine, Expectation, LineFault, is_without_demands, read_expectation};
pub use laws::{law_no_difference, law_possible_patterns};
pub use matching::first_match;
