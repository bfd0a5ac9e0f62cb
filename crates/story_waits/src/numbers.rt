ghost use Rattle.std.specs.Prelude.{◌≡◌, ◌++◌, ◌∷◌, [], ◌==◌, ℕ, None, IfOk, OnOk, List, map, if◌then◌else◌};
ghost use Rattle.job_story.specs.Notes as notes;
ghost use Rattle.job_story.specs.Notes.{number_after, number_in, or_number};
ghost use Rattle.story_waits.specs.Groups.{KnowsMoves};
ghost use Rattle.story_waits.specs.Moves.{move_in, turn_in};
ghost use Rattle.story_waits.specs.Numbers.{number_at};

use crate::groups::Groups;
use crate::moves::{Move, Turn};
use exceptions::Label;
use indexmap::IndexMap;
use std::alloc::{AllocError, Global};

// Reads moves in the order in which limiters and channels serve them. Returns who made them, and the number of each event that has
// one: its place in a queue, or its number among what was granted.
pub(crate) fn serve<'e>(
    alloc: Global,
    turns: &[Turn<'e>],
) -> Result<(Groups<'e>, IndexMap<usize, usize>), AllocError>
    ensures groups { IfOk result (λ served. KnowsMoves served.0 (map turn_in turns.now)) }
    ensures numbers { IfOk result (λ served. (i : ℕ) → number_at served.1 i ≡ number_in [] i (map turn_in turns.now)) }
{
    let mut groups = Groups::new(alloc);
    let mut numbers = IndexMap::new(alloc);
    'turns: for turn in turns {
        serve_one(alloc, &mut groups, &mut numbers, turn)?;
    }
    Ok((groups, numbers))
}

// Reads one more move, and gives its event a number if it has none.
fn serve_one<'e>(
    alloc: Global,
    groups: &mut Groups<'e>,
    numbers: &mut IndexMap<usize, usize>,
    turn: &Turn<'e>,
) -> Result<(), AllocError>
    ensures groups { (served : List notes.Turn) → KnowsMoves groups.old served →
        OnOk result (KnowsMoves groups.new (served ++ turn_in turn.entry.now ∷ [])) }
    ensures numbers { (served : List notes.Turn) → KnowsMoves groups.old served → OnOk result ((i : ℕ) → number_at numbers.new i
        ≡ or_number (number_at numbers.old i)
        (if turn.entry.now.event == i then number_after served turn.entry.now.object.now (move_in turn.entry.now.made) else None)) }
{
    let number = number_after(groups, turn.object, turn.made);
    note_number(numbers, turn.event, number)?;
    groups.read(alloc, turn)?;
    Ok(())
}

// Gives an event a number, if there is one and it has none.
fn note_number(
    numbers: &mut IndexMap<usize, usize>,
    event: usize,
    number: Option<usize>,
) -> Result<(), AllocError>
    ensures { OnOk result ((i : ℕ) → number_at numbers.new i ≡ or_number (number_at numbers.old i) (if event == i then number else None)) }
{
    let Some(number) = number else {
        return Ok(());
    };
    if numbers.contains_key(&event) {
        return Ok(());
    }
    numbers.insert(event, number)?;
    Ok(())
}

// Returns the number of a move after those that were read: its place in the queue, or its number among what was granted.
fn number_after(groups: &Groups<'_>, object: &Label, made: Move) -> Option<usize>
    ensures { (served : List notes.Turn) → KnowsMoves groups.now served → result ≡ number_after served object.now (move_in made) }
{
    match made {
        Move::Joins(ask) => {
            let joined = groups.how_many(object, made);
            let gone = groups.how_many(object, Move::Goes(ask));
            Some((joined + 1).saturating_sub(gone))
        }
        Move::IsGranted(_) => Some(groups.how_many(object, made)),
        _ => None,
    }
}
