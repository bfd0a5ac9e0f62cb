ghost use Rattle.std.specs.Prelude.{◌≡◌, OnOk, map};
ghost use Rattle.basics.specs.Sorting.{sorted_by};
ghost use Rattle.job_story.specs.Notes.{leaving_of, moment_of, place_of};
ghost use Rattle.story_waits.specs.Moves.{turn_in};

use crate::moves::Turn;
use std::alloc::{AllocError, Global};

// Sorts moves by moment, so that in a moment those who leave a queue come first, and the others are in the order of records. The
// moves are given in the order of the walk.
pub(crate) fn serve_in_order(alloc: Global, turns: &mut [Turn<'_>]) -> Result<(), AllocError>
    ensures { OnOk result (map turn_in turns.new
        ≡ sorted_by moment_of (sorted_by leaving_of (sorted_by place_of (map turn_in turns.old)))) }
{
    sort_by_place(alloc, turns)?;
    sort_by_leaving(alloc, turns)?;
    sort_by_moment(alloc, turns)
}

// Sorts moves by the order of records. Those of one task keep their order.
fn sort_by_place(alloc: Global, turns: &mut [Turn<'_>]) -> Result<(), AllocError>
    ensures { OnOk result (map turn_in turns.new ≡ sorted_by place_of (map turn_in turns.old)) }
{
    turns.sort_by_key(alloc, |turn| turn.record_place)
}

// Puts those that leave a queue before the others.
fn sort_by_leaving(alloc: Global, turns: &mut [Turn<'_>]) -> Result<(), AllocError>
    ensures { OnOk result (map turn_in turns.new ≡ sorted_by leaving_of (map turn_in turns.old)) }
{
    turns.sort_by_key(alloc, |turn| turn.made.after_leaving())
}

// Sorts moves by moment. Those of one moment keep their order.
fn sort_by_moment(alloc: Global, turns: &mut [Turn<'_>]) -> Result<(), AllocError>
    ensures { OnOk result (map turn_in turns.new ≡ sorted_by moment_of (map turn_in turns.old)) }
{
    turns.sort_by_key(alloc, |turn| turn.moment)
}
