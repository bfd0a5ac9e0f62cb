ghost use Rattle.std.specs.Prelude.{◌≡◌, ◌≤◌, ◌^◌, ◌++◌, [], ◌∷◌, List, true, None, IfOk, OnOk};
ghost use Rattle.std.specs.Option.{ForSome};
ghost use Rattle.cancel_scopes.specs.Tree.{IsOpen, outer_of};
ghost use Rattle.job_meaning.specs.Log.{Table};
ghost use Rattle.job_meaning.specs.Moments.{tick_of};
ghost use Rattle.job_meaning.specs.Rest.{Frame as Left};
ghost use Rattle.nursery_book.specs.declared.book.NurseryBook.{NurseryBook as Book};
ghost use Rattle.turn_semantics.specs.Midway.{Place};
ghost use Rattle.turn_semantics.specs.Steps.{waits_on};
ghost use Rattle.turn_semantics.specs.Midway.{label_among};
ghost use Rattle.task_machine.specs.Events.{WaitsWithin, at_checkpoint, is_wait_over};
ghost use Rattle.task_machine.specs.Noted.{entry_of};
ghost use Rattle.task_machine.specs.Stacked.{AreAt, AwaitsEvent};
ghost use Rattle.task_machine.specs.Standing.{waits_by};
ghost use Rattle.task_machine.specs.Stops.{Numbers, MovesAs};
ghost use Rattle.task_machine.specs.Tasks.{scope_of, lent_of};
ghost use Rattle.task_machine.specs.Waking.{IsInRangeTaskState};
ghost use Rattle.task_machine.specs.Worlds.{label_at, event_at, NotesWait};

use crate::entry::Entry;
use crate::stop::{Moved, Stop, TaskState};
use crate::task::Task;
use crate::world::World;
use cancel_scopes::ScopeId;
use job_meaning::Clock;
use job_tree::Name;
use std::alloc::AllocError;

impl<'a> Task<'a> {
    /// Returns whether the task waits for an event, not at a checkpoint, that is set by the present moment. It then goes on, also
    /// if it sees a cancellation. The moment in which it began to wait is at most 2 to the 62.
    pub fn is_wait_over(&self, world: &World<'a>) -> bool
        requires { WaitsWithin self.now.task_state }
        ensures { result ≡ is_wait_over world.now.clock (event_at world.now) self.now.task_state world.now.tick }
    {
        let TaskState::Waiting { event, since } = &self.task_state else {
            return false;
        };
        let ends = world.set_by(*event, *since);
        world.clock().a_round_after(*since) < ends && ends <= world.now()
    }

    // Waits for the innermost event of that name that encloses the task. Where there is none, the task goes on.
    pub(crate) fn wait_for(&mut self, name: Name, world: &World<'a>) -> Moved<'a>
        requires scope { ForSome (scope_of self.old) (IsOpen world.now.scopes) }
        requires tick { world.now.tick ≤ 2 ^ 62 }
        ensures stays { self.new ≡ record self.old { task_state = self.new.task_state } }
        ensures task_state { IsInRangeTaskState self.old.task_state → IsInRangeTaskState self.new.task_state }
        ensures waits { waits_by result self.new.task_state ≡ None }
        ensures moves { (cancelled_from : Table) (numbers : Numbers) (book : Book) (fs : List Left) (ps : List Place) →
            AreAt (label_at world.now) (event_at world.now) cancelled_from (outer_of world.now.scopes (scope_of self.old)) ps →
            MovesAs world.now.clock numbers book (lent_of self.old) result self.new.task_state
            (waits_on (label_among true name ps) name world.now.tick fs ps)
            × AwaitsEvent (label_at world.now) (outer_of world.now.scopes (scope_of self.old))
            (waits_on (label_among true name ps) name world.now.tick fs ps).stopped self.new.task_state ps }
    {
        let Some(event) = world.find(self.scope(), name, true) else {
            return Moved::On(None);
        };
        self.task_state = TaskState::Waiting {
            event,
            since: world.now(),
        };
        Moved::Stops(Stop::WaitFor(event))
    }

    // Notes that the task has waited for an event until it was set.
    pub(crate) fn note_wait(&mut self, event: ScopeId, world: &World<'a>) -> Result<(), AllocError>
        ensures stays { OnOk result (self.new ≡ record self.old { entries = self.new.entries }) }
        ensures noted { OnOk result (NotesWait (label_at world.now event) (tick_of world.now.clock world.now.tick)
            self.old.entries.items self.new.entries.items) }
    {
        let Some(label) = world.label_of(event) else {
            return Ok(());
        };
        let label = Box::new(self.alloc, label.copy(self.alloc)?)?;
        self.entries.push(Entry::Wait {
            label,
            tick: world.tick(),
        })?;
        Ok(())
    }

    // Whether the task is at a checkpoint: it sleeps no tick, or waits for an event that is set by the next round.
    pub(crate) fn is_at_checkpoint(&self, world: &World<'a>) -> bool
        requires { IsInRangeTaskState self.now.task_state }
        ensures { result ≡ at_checkpoint world.now.clock (event_at world.now) self.now.task_state }
    {
        match &self.task_state {
            TaskState::Asleep { paced, ticks, .. } => !*paced && *ticks == 0,
            TaskState::Waiting { event, since } => match world.clock() {
                Clock::ByTicks => false,
                Clock::ByRounds => world.set_by(*event, *since) <= *since + 1,
            },
            _ => false,
        }
    }
}
