//! The tasks of the program, as the code holds them in a run, are a run of the definitions. It does nothing at run time.
//!
//! The layer defines what the code holds of all tasks of a run, and its relation to a run of the definitions
//! (`specs/RunState.antt`); and what the code does with it when a run begins (`specs/Begun.antt`), when a task takes a turn
//! (`specs/Ready.antt`, `specs/Step.antt`) or leaves (`specs/Leaving.antt`), and when started tasks are taken or the clock
//! jumps (`specs/Moved.antt`). It promises that each of these keeps that relation, and that a run whose tasks have all ended
//! has the result that the job means (`specs/Over.antt`, `specs/Laws.antt`).
#![tactic(auto)]

mod laws;

pub use laws::law_states;
