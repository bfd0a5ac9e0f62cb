//! What tasks ask of limiters and channels, and what they do to them.
ghost use Rattle.std.specs.Prelude.{◌≡◌, ◌≤◌, ◌^◌, ◌++◌, ℕ, true, false, [], ◌∷◌, List, All, None, Some, IfOk, OnOk};
ghost use Rattle.std.specs.Option.{ForSome};
ghost use Rattle.cancel_scopes.specs.Sight.{seen};
ghost use Rattle.cancel_scopes.specs.Tree.{IsOpen, outer_of};
ghost use Rattle.input_lines.specs.Part.{buffer_of};
ghost use Rattle.job_meaning.specs.Log.{Table};
ghost use Rattle.job_tree.specs.InRange.{AreInRange};
ghost use Rattle.job_tree.specs.Starting.{StartsIn};
ghost use Rattle.job_tree.specs.Tree.{Steps};
ghost use Rattle.job_tree.specs.declared.object.Ask.{Ask as AskOf};
ghost use Rattle.job_meaning.specs.Moments.{tick_of};
ghost use Rattle.job_meaning.specs.Rest.{Frame as Left, steps_left, queued};
ghost use Rattle.job_meaning.specs.Walk.{stack_for};
ghost use Rattle.nursery_book.specs.declared.book.NurseryBook.{NurseryBook as Book};
ghost use Rattle.turn_semantics.specs.Midway.{Place, label_among, stack_at};
ghost use Rattle.turn_semantics.specs.Steps.{asks_of, asks_if, blocks_on};
ghost use Rattle.turn_semantics.specs.Wakes.{is_granted};
ghost use Rattle.task_machine.specs.Entered.{ClosesAt};
ghost use Rattle.task_machine.specs.Fitting.{AreOf, Fits, HasCut, block_in, blocks_of, received_in, received_inside, waits_of};
ghost use Rattle.task_machine.specs.Frames.{frame_of, frames_of};
ghost use Rattle.task_machine.specs.Stacked.{AreAt, AwaitsEvent};
ghost use Rattle.task_machine.specs.Standing.{waits_by, Wakens};
ghost use Rattle.task_machine.specs.States.{state_of};
ghost use Rattle.task_machine.specs.Stops.{Numbers, MovesAs};
ghost use Rattle.task_machine.specs.Tasks.{scope_of, lent_of};
ghost use Rattle.objects.specs.Held.{what_in};
ghost use Rattle.task_machine.specs.Waking.{IsInRangeTaskState, WakesFrom};
ghost use Rattle.task_machine.specs.Worlds.{label_at, event_at, NotesGrant};
ghost use Rattle.task_machine.specs.declared.serving.Act.TheVariants as acts;
ghost use Rattle.task_machine.specs.declared.stop.TaskState.TheVariants.{Queued};
ghost use Rattle.task_machine.specs.declared.stop.Wake.TheVariants as wakes;

use crate::entry::Entry;
use crate::frame::Frame;
use crate::serving::Act;
use crate::stop::{Moved, ObjectRequest, Stop, TaskState};
use crate::task::Task;
use crate::world::World;
use block_exits::{closed_resource, end_of_channel};
use cancel_scopes::{ScopeId, stacks_are_chains};
use exceptions::{Exc, Label};
use job_meaning::Clock;
use job_tree::{Ask, Body, Name};
use objects::Grant;
use std::alloc::AllocError;

impl<'a> Task<'a> {
    // Asks the innermost limiter or channel of that name that encloses the task, unless the task sees a cancellation, its own of
    // this moment too. Where there is none of that name, the task goes on.
    pub(crate) fn ask_of(
        &mut self,
        name: Name,
        ask: Ask,
        body: &'a Body,
        world: &World<'a>,
    ) -> Moved<'a>
        requires scope { ForSome (scope_of self.old) (IsOpen world.now.scopes) }
        requires tick { world.now.tick ≤ 2 ^ 62 }
        requires cuts { All HasCut self.old.frames.items }
        requires lent { AreOf (buffer_of self.old.part) (received_in self.old.frames.items) }
        requires in_range { AreInRange body.now }
        requires starts { StartsIn false body.now }
        ensures stays { self.new ≡ record self.old { task_state = self.new.task_state } }
        ensures task_state { IsInRangeTaskState self.old.task_state → IsInRangeTaskState self.new.task_state }
        ensures waits { waits_by result self.new.task_state ≡ None }
        ensures moves { (cancelled_from : Table) (numbers : Numbers) (book : Book) (fs : List Left) (ps : List Place) →
            AreAt (label_at world.now) (event_at world.now) cancelled_from (outer_of world.now.scopes (scope_of self.old)) ps →
            MovesAs world.now.clock numbers book (lent_of self.old) result self.new.task_state
            (asks_of world.now.clock (label_among true name ps)
            (seen (stack_for self.old.cancelled.items world.now.tick (stack_at cancelled_from ps).scopes) world.now.tick) name ask
            world.now.tick body.now fs ps)
            × AwaitsEvent (label_at world.now) (outer_of world.now.scopes (scope_of self.old))
            (asks_of world.now.clock (label_among true name ps)
            (seen (stack_for self.old.cancelled.items world.now.tick (stack_at cancelled_from ps).scopes) world.now.tick) name ask
            world.now.tick body.now fs ps).stopped self.new.task_state ps }
    {
        let Some(object) = world.find(self.scope(), name, true) else {
            return Moved::On(None);
        };
        if world.sees_own(self.scope(), &self.cancelled) {
            return self.refuse_to_ask(world);
        }
        self.enter_queue(object, ask, body, world)
    }

    // The task does not ask, since it sees a cancellation: it raises as a checkpoint does that is cancelled.
    fn refuse_to_ask(&mut self, world: &World<'a>) -> Moved<'a>
        requires tick { world.now.tick ≤ 2 ^ 62 }
        ensures stays { self.new ≡ record self.old { task_state = self.new.task_state } }
        ensures task_state { IsInRangeTaskState self.old.task_state → IsInRangeTaskState self.new.task_state }
        ensures waits { waits_by result self.new.task_state ≡ None }
        ensures moves { (numbers : Numbers) (book : Book) (name : List ℕ) (ask : AskOf) (body : Steps) (fs : List Left) (ps : List Place) →
            MovesAs world.now.clock numbers book (lent_of self.old) result self.new.task_state
            (asks_if world.now.clock true name ask world.now.tick body fs ps) }
    {
        match world.clock() {
            Clock::ByTicks => Moved::On(Some(Exc::Cancelled)),
            Clock::ByRounds => {
                let since = world.now() + 1;
                self.task_state = TaskState::GivingUp { since };
                Moved::Stops(Stop::GiveUp(since + 1))
            }
        }
    }

    // The task asks in this moment, and waits.
    fn enter_queue(
        &mut self,
        object: ScopeId,
        ask: Ask,
        body: &'a Body,
        world: &World<'a>,
    ) -> Moved<'a>
        requires tick { world.now.tick ≤ 2 ^ 62 }
        requires cuts { All HasCut self.old.frames.items }
        requires lent { AreOf (buffer_of self.old.part) (received_in self.old.frames.items) }
        requires in_range { AreInRange body.now }
        requires starts { StartsIn false body.now }
        ensures stays { self.new ≡ record self.old { task_state = Queued object ask world.now.tick body.entry } }
        ensures task_state { IsInRangeTaskState self.new.task_state }
        ensures waits { waits_by result self.new.task_state ≡ None }
        ensures moves { (numbers : Numbers) (book : Book) (name : List ℕ) (fs : List Left) (ps : List Place) →
            MovesAs world.now.clock numbers book (lent_of self.old) result self.new.task_state
            (blocks_on (queued name ask world.now.tick body.now) fs ps) }
    {
        let since = world.now();
        let part = self.part_here();
        self.task_state = TaskState::Queued {
            object,
            ask,
            since,
            body,
        };
        Moved::Stops(Stop::Queue(ObjectRequest { object, ask, part }))
    }

    // Closes the innermost channel of that name that encloses the task, at the end of the round.
    pub(crate) fn close(&self, name: Name, world: &mut World<'a>) -> Result<(), AllocError>
        requires scope { ForSome (scope_of self.now) (IsOpen world.old.scopes) }
        ensures rest { OnOk result (world.new ≡ record world.old { acts = world.new.acts }) }
        ensures at { OnOk result (ClosesAt (state_of self.now world.old) (state_of self.now world.new) name) }
    {
        stacks_are_chains(&world.scopes);
        if let Some(id) = world.find(self.scope(), name, true) {
            let label = world.label(id).copy(self.alloc)?;
            world.note_act(label, Act::Closes)?;
        }
        Ok(())
    }

    // Goes on with what the limiter or channel granted that the task asked.
    pub(crate) fn take_grant(
        &mut self,
        grant: Grant<'a>,
        world: &World<'a>,
    ) -> Result<Moved<'a>, AllocError>
        requires fits { Fits (state_of self.old world.now) (waits_of self.old.task_state) }
        requires task_state { IsInRangeTaskState self.old.task_state }
        requires wake { WakesFrom self.old.task_state (lent_of self.old) world.now.book (wakes.Granted grant) }
        ensures stays { OnOk result (self.new ≡ record self.old { frames = self.new.frames; entries = self.new.entries }) }
        ensures fits { IfOk result (λ moved. Fits (state_of self.new world.now) (waits_by moved self.new.task_state)) }
        ensures wakes { IfOk result (λ moved. Wakens (state_of self.old world.now) (state_of self.new world.now) moved
            (is_granted (what_in grant.entry))) }
    {
        let TaskState::Queued { object, body, .. } = &self.task_state else {
            unreachable!()
        };
        let body = *body;
        let Some(label) = world.label_of(*object) else {
            return Ok(Moved::On(None));
        };
        match grant {
            Grant::Token => {
                let limiter = Box::new(self.alloc, label.copy(self.alloc)?)?;
                self.note_grant(Ask::Acquire, label, world)?;
                self.begin_inside(Frame::Token { limiter }, body)?;
                Ok(Moved::On(None))
            }
            Grant::Sent => {
                self.note_grant(Ask::Send, label, world)?;
                self.push(Frame::Steps(body.as_slice()))?;
                Ok(Moved::On(None))
            }
            Grant::Received(part) => {
                self.note_grant(Ask::Receive, label, world)?;
                self.begin_inside(Frame::Received { part }, body)?;
                Ok(Moved::On(None))
            }
            Grant::ClosedResource => {
                let moved = self.raise(closed_resource(), world)?;
                Ok(moved)
            }
            Grant::EndOfChannel => {
                let moved = self.raise(end_of_channel(), world)?;
                Ok(moved)
            }
        }
    }

    // Notes what the limiter or channel of that label granted.
    fn note_grant(&mut self, ask: Ask, label: &Label, world: &World<'a>) -> Result<(), AllocError>
        ensures stays { OnOk result (self.new ≡ record self.old { entries = self.new.entries }) }
        ensures noted { OnOk result (NotesGrant ask label.now (tick_of world.now.clock world.now.tick)
            self.old.entries.items self.new.entries.items) }
    {
        let label = Box::new(self.alloc, label.copy(self.alloc)?)?;
        self.entries.push(Entry::Granted {
            ask,
            label,
            tick: world.tick(),
        })?;
        Ok(())
    }

    // Begins a block inside a frame that holds what was granted.
    fn begin_inside(&mut self, held: Frame<'a>, body: &'a Body) -> Result<(), AllocError>
        ensures stays { OnOk result (self.new ≡ record self.old { frames = self.new.frames }) }
        ensures frames { OnOk result ((numbers : Numbers) → frames_of numbers self.new.frames.items
            ≡ steps_left body.now ∷ frame_of numbers held.entry ∷ frames_of numbers self.old.frames.items) }
        ensures blocks { OnOk result (blocks_of self.new.frames.items ≡ block_in held.entry (blocks_of self.old.frames.items)) }
        ensures received { OnOk result (received_in self.new.frames.items ≡ received_inside held.entry (received_in self.old.frames.items)) }
    {
        self.push(held)?;
        self.push(Frame::Steps(body.as_slice()))?;
        Ok(())
    }
}

// The block of an `acquire` ended with this exception or none: its token comes back at the end of the round. Returns the exception.
pub(crate) fn give_back<'a>(
    limiter: Box<Label>,
    exc: Option<Exc>,
    world: &mut World<'a>,
) -> Result<Option<Exc>, AllocError>
    ensures same { IfOk result (λ after. after ≡ exc) }
    ensures noted { OnOk result (world.new.acts.items ≡ world.old.acts.items ++ record { object = limiter.value; act = acts.GivesBack } ∷ []) }
    ensures rest { OnOk result (world.new ≡ record world.old { acts = world.new.acts }) }
{
    world.note_act(Box::into_inner(limiter), Act::GivesBack)?;
    Ok(exc)
}
