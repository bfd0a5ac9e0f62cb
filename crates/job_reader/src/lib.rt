//! Texts to jobs and back; every refusal with its place; names given twice, a `cancel` outside its scope, reserved names, size.
//!
//! The checks of a job that a grammar cannot make: names that are given twice, a name that a step uses and nothing of its kind
//! around the step has, names that are reserved, and the number of step instances.
//!
//! Each check of names returns exactly the earliest place at which it finds something.
//!
//! Reads job texts as jobs, and writes jobs as texts.
//!
//! `read_job` returns exactly the job that a text spells. It refuses any other text by the first of its checks that finds a
//! fault, at the earliest place (`specs/Refusals.antt`). The canonical text of a job, which `write_job` returns, spells that
//! job. Each `Job` is spelled by some text; so no name is given twice, each `start` is in a nursery, and the numbers are in
//! their ranges (`laws.rt`).
#![tactic(auto)]

mod draft;
mod fault;
mod given;
mod heads;
mod job;
mod laws;
mod reading;
mod reserved;
mod size;
mod spelled;
mod target;
mod uses;
mod writing;

pub use fault::{JobFault, JobKind};
pub use given::given_twice;
pub use heads::{push_head, push_keyword, push_named};
pub use job::Job;
pub use job_tree::{Ask, Body, Deadline, Format, Handler, Name, ObjectKind, Step, Text};
pub use laws::{canonical_text_spells, spelled_jobs_are_sound, spells_one_job};
pub use reading::{FIRST_LINE_LENGTH, MAX_BYTES, first_line, format_of, read_job};
pub use reserved::reserved_name;
pub use size::size_of;
pub use spelled::spelled_tokens;
pub use target::TargetKind;
pub use uses::stray_use;
pub use writing::write_job;
