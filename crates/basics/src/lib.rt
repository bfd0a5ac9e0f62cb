//! Numbers as digits; the line and the column of a place in a text, and the parts of a feed; definitions and lemmas of stable
//! sorting by a number.
//!
//! Numbers as digits.
//!
//! The layer promises that `push_number` and `push_str_number` append the decimal digits of a number, that `digit_count` is how
//! many these are, and that `hex_digit` is the hexadecimal digit of a number below 16.
//!
//! What a stable sort by a number results in.
//!
//! There is no code here. `sorted_by` (`specs/Sorting.antt`) is a list sorted by a number, in which elements with the same
//! number keep their order. `proofs/Ranks.antt` shows that `sort_by_key` of std has this result, also where the elements are
//! seen through a view, such as what a definition sees of a value of the code.
//!
//! The line and the column of a place in a text, and the parts of a feed.
//!
//! The layer promises that `line_of` and `column_of` are the line and the column of a place, that `place_at` returns a place
//! that has a line and a column, and that `split_feed` splits at the first line that is exactly `%input`.
#![tactic(auto)]

mod decimal;
mod feed;
mod hex;
mod places;

pub use decimal::{digit_count, push_number, push_str_number};
pub use feed::split_feed;
pub use hex::hex_digit;
pub use places::{column_of, line_of, place_at};
