//! What holds of the shared word and the tickets between any two steps, and what each step does to a ticket. These are only
//! facts for proofs: no code runs.

use atomic_table::{Join, Play, Split, Table, TableRule};
use std::alloc::Global;
use std::collections::LinkedList;

/// What proofs know of a ticket: how many requests there are (`most`), how many tickets it stands for (`parts`), which
/// numbers it drew, and how often it got `None`. No value of this type is created at run time.
pub struct Hand {
    pub most: u64,
    pub parts: u64,
    pub drawn: LinkedList<u64>,
    pub nones: u64,
}

/// The number of requests and the number of tickets.
#[derive(Drop)]
pub struct Counts {
    pub requests: u64,
    pub passes: u64,
}

/// The rule of the shared word.
pub struct EachOnce;

impl TableRule<(), Hand, Counts> for EachOnce {
    ghost use Rattle.workers.specs.Rule.{Kept, first_hand};

    ghost holds = { Kept };

    ghost first = { first_hand };
}

/// The step that splits off one more ticket, which has drawn nothing.
pub struct Cut;

impl Split<Hand> for Cut {
    ghost use Rattle.workers.specs.Rule.{one_less, new_hand};

    ghost left = { one_less };

    ghost right = { new_hand };
}

/// The step that draws a number, or returns that none is left.
pub struct Draw;

impl Play<(), Hand> for Draw {
    ghost use Rattle.workers.specs.Rule.{Draws};

    ghost then = { Draws };
}

/// The step that joins another ticket, with the numbers that it drew, to a ticket.
pub struct Gather;

impl Join<Hand> for Gather {
    ghost use Rattle.workers.specs.Rule.{both_hands, spent_hand};

    ghost both = { both_hands };

    ghost spent = { spent_hand };
}

/// A shared word under the rule.
pub type Word = Table<(), Hand, Counts, EachOnce, Global>;
