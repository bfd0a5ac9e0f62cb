ghost use Rattle.std.specs.Prelude.{◌≡◌, ◌≤◌, ◌<◌, ◌^◌, ◌++◌, ℕ, List, [], ◌∷◌, Some, None, OnOk, IfOk, IsTrue, All, length};
ghost use Rattle.input_lines.specs.Part.{buffer_of, range_of};
ghost use Rattle.exceptions.specs.Exceptions.{Label as Named};
ghost use Rattle.job_meaning.specs.Rest.{steps_left};
ghost use Rattle.nursery_book.specs.Book.{HasNursery};
ghost use Rattle.task_machine.specs.declared.stop.TaskState.TheVariants.{ToBegin};
ghost use Rattle.job_tree.specs.InRange.{IsInRangeOver};
ghost use Rattle.turn_semantics.specs.Placed.{in_body};
ghost use Rattle.task_machine.specs.Fitting.{Fits, HasCut, AreOf, InBody, received_in};
ghost use Rattle.task_machine.specs.Frames.{frames_of};
ghost use Rattle.task_machine.specs.Stops.{Numbers};
ghost use Rattle.task_machine.specs.Started.{StartsOne, StartsOver, StartsChildren};
ghost use Rattle.task_machine.specs.States.{state_of};

use crate::frame::Frame;
use crate::stop::TaskState;
use crate::task::{Home, Task};
use crate::world::World;
use exceptions::Label;
use input_lines::Part;
use job_tree::{Body, Name};
use nursery_book::NurseryId;
use smallvec::SmallVec;
use std::alloc::{AllocError, Global};
use std::collections::VecDeque;

impl<'a> Task<'a> {
    // A child that will begin with a body, on its part, in moment `at`.
    fn child(
        alloc: Global,
        label: Label,
        part: Part<'a>,
        body: &'a Body,
        home: Home,
        at: u64,
    ) -> Result<Task<'a>, AllocError>
        ensures label { IfOk result (λ task. task.label ≡ label) }
        ensures part { IfOk result (λ task. task.part ≡ part.entry) }
        ensures home { IfOk result (λ task. task.home ≡ Some home) }
        ensures frames { IfOk result (λ task. (numbers : Numbers) →
            frames_of numbers task.frames.items ≡ steps_left body.now ∷ []) }
        ensures own { IfOk result (λ task. task.own.items ≡ []) }
        ensures task_state { IfOk result (λ task. task.task_state ≡ ToBegin at) }
        ensures entries { IfOk result (λ task. task.entries.items ≡ []) }
        ensures cancelled_from { IfOk result (λ task. task.cancelled_from.items ≡ []) }
        ensures cancelled { IfOk result (λ task. task.cancelled.items ≡ []) }
    {
        let mut frames = SmallVec::new(alloc);
        frames.push(Frame::Steps(body.as_slice()))?;
        Ok(Task {
            alloc,
            label,
            part,
            home: Some(home),
            frames,
            own: Vec::new(alloc),
            task_state: TaskState::ToBegin { at },
            entries: Vec::new(alloc),
            cancelled_from: Vec::new(alloc),
            cancelled: VecDeque::new(alloc),
        })
    }

    // Starts a child in a nursery of the task. After an error the world can only be dropped.
    pub(crate) fn start(
        &self,
        nursery: NurseryId,
        label: Label,
        part: Part<'a>,
        body: &'a Body,
        world: &mut World<'a>,
    ) -> Result<(), AllocError>
        requires nursery { HasNursery world.old.book nursery (λ n. n.body ≡ None) }
        requires tick { world.old.tick ≤ 2 ^ 62 }
        ensures rest { OnOk result (world.new ≡ record world.old { book = world.new.book; started = world.new.started }) }
        ensures started { OnOk result (StartsOne (state_of self.now world.old) (state_of self.now world.new) nursery label part.entry body.now) }
    {
        let scope = world.book.scope(nursery);
        let index = world.book.start(nursery)?;
        let home = Home {
            nursery,
            index,
            scope,
        };
        let at = world.clock().a_round_after(world.now());
        let child = Task::child(self.alloc, label, part, body, home, at)?;
        world.started.push_back(child)?;
        Ok(())
    }

    // Starts a child for each cut of the part that the task has here.
    pub(crate) fn start_over(
        &self,
        nursery: NurseryId,
        name: Name,
        copies: u64,
        body: &'a Body,
        world: &mut World<'a>,
    ) -> Result<(), AllocError>
        requires cuts { All HasCut self.now.frames.items }
        requires lent { AreOf (buffer_of self.now.part) (received_in self.now.frames.items) }
        requires some { 1 ≤ copies }
        requires few { copies ≤ 64 }
        requires nursery { HasNursery world.old.book nursery (λ n. n.body ≡ None) }
        requires tick { world.old.tick ≤ 2 ^ 62 }
        ensures rest { OnOk result (world.new ≡ record world.old { book = world.new.book; started = world.new.started }) }
        ensures started { OnOk result (StartsOver (state_of self.now world.old) (state_of self.now world.new) nursery name copies body.now
            copies) }
    {
        let whole = self.part_here();
        let mut cuts = whole.cuts(copies as usize);
        'copies: for i in 0..copies {
            let part = cuts.next_cut();
            let label = self.label_here(name)?.with_index(i)?;
            self.start(nursery, label, part, body, world)?;
        }
        Ok(())
    }

    // Starts the children of a `start`: one on the part that the task has here, or one for each of `over` cuts of it.
    pub(crate) fn begin_children(
        &self,
        name: Name,
        over: Option<u64>,
        body: &'a Body,
        world: &mut World<'a>,
    ) -> Result<(), AllocError>
        requires fits { Fits (state_of self.now world.old) None }
        requires over { IsInRangeOver over }
        requires tick { world.old.tick ≤ 2 ^ 62 }
        requires body { IsTrue (in_body (frames_of (λ id. []) self.now.frames.items)) }
        ensures rest { OnOk result (world.new ≡ record world.old { book = world.new.book; started = world.new.started }) }
        ensures fits { OnOk result (Fits (state_of self.now world.new) None) }
        ensures children { OnOk result (StartsChildren (state_of self.now world.old) (state_of self.now world.new) name over body.now) }
    {
        let nursery = self.nursery();
        match over {
            None => {
                let label = self.label_here(name)?;
                let part = self.part_here();
                self.start(nursery, label, part, body, world)?;
            }
            Some(copies) => self.start_over(nursery, name, copies, body, world)?,
        }
        Ok(())
    }

    // The nursery in whose body the task is, perhaps in passes of a `repeat` there.
    fn nursery(&self) -> NurseryId
        requires { IsTrue (in_body (frames_of (λ id. []) self.now.frames.items)) }
        ensures { InBody self.now.frames.items result }
    {
        let frames = self.frames.as_slice();
        let mut at = frames.len();
        'outwards: while at > 0 {
            at -= 1;
            if let Frame::Nursery { id } = &frames[at] {
                return *id;
            }
        }
        unreachable!()
    }
}
