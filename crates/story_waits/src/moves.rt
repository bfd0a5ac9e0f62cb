ghost use Rattle.std.proofs.Common.{rules};
ghost use Rattle.std.specs.Cmp.Rules.{hashing};
ghost use Rattle.std.specs.Cmp.{partial_equiv_from_equiv};
ghost use Rattle.std.specs.Hash as fed;
ghost use Rattle.std.specs.Prelude.{◌≡◌};
ghost use Rattle.job_story.specs.Notes.{after_leaving, ask_number, move_number};
ghost use Rattle.story_waits.specs.Moves.{move_in, same_made, same_made_equiv};

use exceptions::Label;
use job_tree::Ask;
use std::hash::{Hash, Hasher};

// What a task does at a limiter or channel.
#[derive(Clone, Copy)]
pub(crate) enum Move {
    // It joins the queue of those who ask the same.
    Joins(Ask),
    // It leaves that queue, with what it asked or without.
    Goes(Ask),
    // What it asked is granted.
    IsGranted(Ask),
    // Its token comes back.
    GivesBack,
    // It closes the channel.
    Closes,
}

impl Move {
    // Returns a number that no other move has.
    fn number(self) -> u64
        ensures { result ≡ move_number (move_in self) }
    {
        match self {
            Move::Joins(ask) => ask_number(ask),
            Move::Goes(ask) => 3 + ask_number(ask),
            Move::IsGranted(ask) => 6 + ask_number(ask),
            Move::GivesBack => 9,
            Move::Closes => 10,
        }
    }

    // Returns 0 for who leaves a queue, and 1 for the others, which come after that in a moment.
    pub(crate) fn after_leaving(self) -> u64
        ensures { result ≡ after_leaving (move_in self) }
    {
        match self {
            Move::Goes(_) => 0,
            _ => 1,
        }
    }
}

impl PartialEq for Move {
    ghost eq = { same_made };

    ghost laws = { partial_equiv_from_equiv same_made_equiv };

    fn eq(&self, other: &Move) -> bool {
        self.number() == other.number()
    }
}

impl Eq for Move {
    ghost laws = { same_made_equiv };
}

impl Hash for Move {
    ghost hash_input = { λ made. fed.u64 (move_number (move_in made)) };

    ghost respects_eq = { Prim.search (hashing, rules) };

    fn hash<H: Hasher>(&self, state: &mut H) {
        self.number().hash(state);
    }
}

// A move in an event of a story.
#[derive(Clone, Copy)]
pub(crate) struct Turn<'e> {
    // The number of the event in the walk.
    pub(crate) event: usize,
    // The place of the task in the order of records.
    pub(crate) record_place: usize,
    // The task.
    pub(crate) task: &'e Label,
    // The limiter or channel.
    pub(crate) object: &'e Label,
    // The moment; for what is granted, that in which it was asked.
    pub(crate) moment: u64,
    // The move.
    pub(crate) made: Move,
}

// Returns a number of what is asked, from 0 to 2.
fn ask_number(ask: Ask) -> u64
    ensures { result ≡ ask_number ask }
{
    match ask {
        Ask::Acquire => 0,
        Ask::Send => 1,
        Ask::Receive => 2,
    }
}
