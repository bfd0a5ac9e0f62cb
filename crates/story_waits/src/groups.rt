ghost use Rattle.std.specs.Prelude.{◌≡◌, ◌<◌, ◌++◌, ◌∷◌, [], OnOk, List};
ghost use Rattle.job_story.specs.Notes as notes;
ghost use Rattle.job_story.specs.Notes.{how_many, tasks_at};
ghost use Rattle.story_waits.specs.Groups.{KnowsMoves, labels_in};
ghost use Rattle.story_waits.specs.Moves.{move_in, turn_in};

use crate::moves::{Move, Turn};
use exceptions::Label;
use indexmap::IndexMap;
use std::alloc::{AllocError, Global};

// A move at a limiter or channel.
#[derive(PartialEq, Eq, Hash, Drop)]
pub(crate) struct MoveAt<'e> {
    pub(crate) object: &'e Label,
    pub(crate) made: Move,
}

// The tasks that made each move at each limiter and channel, in the order in which these serve them. A look-up takes constant
// time.
#[derive(Drop)]
pub(crate) struct Groups<'e> {
    pub(crate) tasks: IndexMap<MoveAt<'e>, Vec<&'e Label>>,
}

impl<'e> Groups<'e> {
    // Returns groups without tasks. Takes no memory.
    pub(crate) fn new(alloc: Global) -> Groups<'e>
        ensures { KnowsMoves result [] }
    {
        Groups {
            tasks: IndexMap::new(alloc),
        }
    }

    // Records one more move.
    pub(crate) fn read(&mut self, alloc: Global, turn: &Turn<'e>) -> Result<(), AllocError>
        ensures { (turns : List notes.Turn) → KnowsMoves self.old turns → OnOk result (KnowsMoves self.new (turns ++ turn_in turn.entry.now ∷ [])) }
    {
        let at = MoveAt {
            object: turn.object,
            made: turn.made,
        };
        if let Some(tasks) = self.tasks.get_mut(&at) {
            tasks.push(turn.task)?;
            return Ok(());
        }
        let mut tasks = Vec::new(alloc);
        tasks.push(turn.task)?;
        self.tasks.insert(at, tasks)?;
        Ok(())
    }

    // Returns the tasks that made a move at a limiter or channel, in order.
    pub(crate) fn tasks_at<'g>(&'g self, object: &'g Label, made: Move) -> &'g [&'e Label]
        ensures { (turns : List notes.Turn) → KnowsMoves self.now turns → labels_in result.now ≡ tasks_at object.now (move_in made) turns }
    {
        let Some(tasks) = self.tasks.get(&MoveAt { object, made }) else {
            return no_labels();
        };
        tasks.as_slice()
    }

    // Returns how many tasks made a move at a limiter or channel.
    pub(crate) fn how_many(&self, object: &Label, made: Move) -> usize
        ensures number { (turns : List notes.Turn) → KnowsMoves self.now turns → result ≡ how_many object.now (move_in made) turns }
        ensures bounded { result < 18446744073709551615 }
    {
        self.tasks_at(object, made).len()
    }
}

// Returns the empty list of labels, which borrows from nothing.
fn no_labels<'g, 'e>() -> &'g [&'e Label]
    ensures { result.now ≡ [] }
{
    &[]
}
