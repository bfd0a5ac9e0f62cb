//! The outcomes of a job with faults and for values of a number, its races, and the warnings about it, each as one JSON document.
//!
//! The layer promises that `faults_json`, `sweep_json`, `races_json` and `lints_json` return the JSON text of a definition over
//! the lines of the text tables (`specs/`). Bytes of a job text and of names are shown as in a report, so a backslash
//! is doubled and a byte that is not printable ASCII is escaped. It uses `outcomes`, `race_text` and `job_lint`
//! for the lines, and `json_story` for the values of labels, exceptions and bytes.
#![tactic(auto)]

mod fault_lines;
mod members;
mod race_lines;
mod results;
mod sweep_lines;
mod warnings;

pub use fault_lines::faults_json;
pub use race_lines::races_json;
pub use results::result_value;
pub use sweep_lines::sweep_json;
pub use warnings::lints_json;
