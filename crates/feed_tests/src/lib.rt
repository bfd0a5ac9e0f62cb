//! `nursery test`: the feeds of files and folders, each compared with what is kept beside it.
//!
//! What is compared is proved in `commands` (the outputs of a feed) and `expect_text` (where texts differ, what an expectation
//! says). The words in the first line of a `.sweep` file are read by `cli`. This layer finds and reads the files, writes the
//! result of each, and keeps new outputs; it is tested on real files (`tests/command`).
#![tactic(auto)]

mod comparing;
mod expecting;
mod feeds;
mod kept;
mod laws;
mod showing;
mod stop;
mod sweeps;
mod tally;
mod testing;

pub use laws::law_status;
pub use stop::TestStop;
pub use tally::Outcome;
pub use testing::test_paths;
