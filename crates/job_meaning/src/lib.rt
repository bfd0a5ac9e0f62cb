//! The definition of what a job means, and its laws; how the time of a job is counted: ticks, and rounds of a tick.
//!
//! Moments: how the time of a job is counted.
//!
//! In formats 1 and 2 a moment is a tick. In format 3 a tick has rounds, and a moment is a round of a tick. The layer promises
//! that the methods of `Clock` return what the definitions of `specs/Moments.antt` say.
//!
//! What a job means: the definitions that the contracts of the layers above cite, and the laws that hold for them. It does
//! nothing at run time.
//!
//! The layer promises seven laws of these definitions: monotone sight, the root, causality, the settled table, that labels are
//! given once, that a job of format 1 means the same in format 2, and a tick by which every job has ended.
#![tactic(auto)]

mod clock;
mod grant_table;
mod laws;
mod limits;

pub use clock::{Clock, FAR, ROUNDS_IN_A_TICK};
pub use grant_table::{GrantTable, Granted};
pub use laws::{
    law_causality, law_end, law_labels, law_monotone_sight, law_root, law_settled_table,
    law_upgrade,
};
pub use limits::{LAST_TICK, MAX_INPUT};
