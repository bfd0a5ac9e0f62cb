//! Changes of a job text at its steps.
//!
//! A changed text has new pieces at their places, and all other bytes of the original text (`specs/Changes.antt`).
//! `waiting_steps` finds each step of a job text that waits, with its place (`specs/Waiting.antt`), and `Plan::changes` returns
//! the changes of the text that make a fault of such a step (`specs/Faults.antt`). `sites` finds each place where time passes or
//! may pass, or where it matters when a step runs; `finer_changes` and `shifted_changes` are the changes that make the ticks of the
//! text finer, and move one place by a hair (`specs/Sites.antt`, `specs/FinerTicks.antt`). `copied_starts` finds each `start` of
//! several tasks, with `over` or in a `repeat` (`specs/Copied.antt`). `number_at` and `block_number` find a number of the text by its
//! place, or as that of a scope, nursery, limiter or channel; `Number::set_to` is the change that puts another number in its place
//! (`specs/Numbers.antt`). The crate uses `job_tokens` for the tokens of the text, `job_syntax` for keywords, and `job_meaning` for
//! how the time of the job is counted.
#![tactic(auto)]

mod change;
mod copied;
mod each;
mod fault;
mod finer_ticks;
mod fresh;
mod number;
mod plan;
mod releases;
mod repeated;
mod shift;
mod site;
mod waiting;
mod writing_out;

pub use change::{Change, Piece, changed_text};
pub use copied::{CopiedStart, copied_starts};
pub use each::{each_variants, has_divided};
pub use fault::{BlockPart, Fault, Variant, variants};
pub use finer_ticks::FinerTicks;
pub use number::{Number, Target, block_names, block_number, number_at};
pub use plan::Plan;
pub use repeated::{RepeatedBlock, repeated_blocks};
pub use shift::{Hair, Shift, finer_changes, hair_scope, shifted_changes, shifts};
pub use site::{Moment, Site, push_moment, sites};
pub use waiting::{Wait, Waiting, push_wait, waiting_steps};
pub use writing_out::{is_in, written_at, written_out};
