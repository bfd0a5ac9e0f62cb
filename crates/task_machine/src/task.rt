ghost use Rattle.std.specs.Prelude.{◌≡◌, ℕ, ◌≤◌, ◌++◌, List, [], ◌∷◌, None, IfOk, OnOk, length};
ghost use Rattle.input_lines.specs.Lines.{bytes_of};
ghost use Rattle.input_lines.specs.Part.{buffer_of, range_of};
ghost use Rattle.job_meaning.specs.declared.limits.TheConstants.{MAX_INPUT};
ghost use Rattle.job_meaning.specs.Rest.{steps_left};
ghost use Rattle.task_machine.specs.Fitting.{blocks_of, block_in, received_in, received_inside};
ghost use Rattle.task_machine.specs.Frames.{frame_of, frames_of};
ghost use Rattle.task_machine.specs.Serving.{queue_of, queued_since};
ghost use Rattle.task_machine.specs.Tasks.{scope_of, home_of, home_scope};
ghost use Rattle.task_machine.specs.declared.stop.TaskState.TheVariants.{ToBegin};

use crate::entry::{Entry, ScopeFrom};
use crate::frame::Frame;
use crate::stop::TaskState;
use cancel_scopes::ScopeId;
use exceptions::Label;
use input_lines::Part;
use job_reader::Job;
use nursery_book::{ChildIndex, NurseryId};
use smallvec::SmallVec;
use std::alloc::{AllocError, Global};
use std::collections::VecDeque;

/// A cancel scope or event that a task opened.
#[derive(Clone, Copy)]
pub(crate) struct Own {
    /// The scope.
    pub(crate) id: ScopeId,
    /// Its index among the task's moments of cancellation.
    pub(crate) at: usize,
}

/// Where a child was started.
#[derive(Clone, Copy)]
pub(crate) struct Home {
    /// Its nursery.
    pub(crate) nursery: NurseryId,
    /// Its index among the nursery's children.
    pub(crate) index: ChildIndex,
    /// The nursery's cancel scope.
    pub(crate) scope: ScopeId,
}

/// A task of a job. It borrows the steps of the job and its part of the input.
#[derive(Drop)]
pub struct Task<'a> {
    pub(crate) alloc: Global,
    pub(crate) label: Label,
    pub(crate) part: Part<'a>,
    // `None` for the root.
    pub(crate) home: Option<Home>,
    // The innermost is the last.
    pub(crate) frames: SmallVec<Frame<'a>, 2>,
    // The innermost is the last.
    pub(crate) own: Vec<Own>,
    pub(crate) task_state: TaskState<'a>,
    pub(crate) entries: Vec<Entry<'a>>,
    pub(crate) cancelled_from: Vec<ScopeFrom>,
    // What it has cancelled itself in this moment, where there are rounds, the latest first. A request takes no round, so it
    // stays while a kernel is asked.
    pub(crate) cancelled: VecDeque<Label>,
}

impl<'a> Task<'a> {
    /// Returns the root task of a job on a part of an input, which has at most `MAX_INPUT` bytes. All steps of the
    /// job are left to do, it is in no nursery and no scope, and it has noted nothing. The only error is that memory
    /// runs out.
    pub fn root(alloc: Global, job: &'a Job, part: Part<'a>) -> Result<Task<'a>, AllocError>
        requires { length (buffer_of part) ≤ MAX_INPUT }
        ensures label { IfOk result (λ task. task.label ≡ record { name = job.now.name; indices = [] }) }
        ensures part { IfOk result (λ task. task.part ≡ part.entry) }
        ensures home { IfOk result (λ task. task.home ≡ None) }
        ensures frames { IfOk result (λ task. (children : ℕ → List ℕ) →
            frames_of children task.frames.items ≡ steps_left job.now.steps ∷ []) }
        ensures own { IfOk result (λ task. task.own.items ≡ []) }
        ensures task_state { IfOk result (λ task. task.task_state ≡ ToBegin 0) }
        ensures entries { IfOk result (λ task. task.entries.items ≡ []) }
        ensures cancelled_from { IfOk result (λ task. task.cancelled_from.items ≡ []) }
        ensures cancelled { IfOk result (λ task. task.cancelled.items ≡ []) }
    {
        let mut frames = SmallVec::new(alloc);
        frames.push(Frame::Steps(job.steps()))?;
        Ok(Task {
            alloc,
            label: Label::new(alloc, job.name()),
            part,
            home: None,
            frames,
            own: Vec::new(alloc),
            task_state: TaskState::ToBegin { at: 0 },
            entries: Vec::new(alloc),
            cancelled_from: Vec::new(alloc),
            cancelled: VecDeque::new(alloc),
        })
    }

    /// Returns the task's label. That of the root is the name of the job.
    pub fn label(&self) -> &Label
        ensures { result.now ≡ self.now.label }
    {
        &self.label
    }

    /// Returns the innermost cancel scope or event that encloses the task: the last one that it opened and did not leave, or
    /// else the scope of its home nursery; `None` for a root that is in none.
    pub fn scope(&self) -> Option<ScopeId>
        ensures { result ≡ scope_of self.now }
    {
        let Some(own) = self.own.last() else {
            return self.home_scope();
        };
        Some(own.id)
    }

    // The cancel scope of the nursery in which the task was started.
    fn home_scope(&self) -> Option<ScopeId>
        ensures { result ≡ home_scope self.now }
    {
        match &self.home {
            Some(home) => Some(home.scope),
            None => None,
        }
    }

    /// Returns the nursery in which the task was started, and its index among that nursery's children; `None` for the
    /// root.
    pub fn home(&self) -> Option<(NurseryId, ChildIndex)>
        ensures { result ≡ home_of self.now }
    {
        match &self.home {
            Some(home) => Some((home.nursery, home.index)),
            None => None,
        }
    }

    /// Returns the limiter or channel for which the task waits, or `None` if it waits for none.
    pub fn queue(&self) -> Option<ScopeId>
        ensures { result ≡ queue_of self.now.task_state }
    {
        match &self.task_state {
            TaskState::Queued { object, .. } => Some(*object),
            _ => None,
        }
    }

    /// Returns the moment in which the task asked the limiter or channel for which it waits, or `None` if it waits for none.
    pub fn queued_since(&self) -> Option<u64>
        ensures { result ≡ queued_since self.now.task_state }
    {
        match &self.task_state {
            TaskState::Queued { since, .. } => Some(*since),
            _ => None,
        }
    }

    /// Returns what the task has noted so far, in the order in which it did.
    pub fn entries(&self) -> &[Entry<'a>]
        ensures { result.now ≡ self.now.entries.items }
    {
        self.entries.as_slice()
    }

    /// Returns the scopes, nurseries and events that the task opened, in that order, each with the moment from which it was
    /// cancelled, or set. It is `None` until it is left.
    pub fn cancelled_from(&self) -> &[ScopeFrom]
        ensures { result.now ≡ self.now.cancelled_from.items }
    {
        self.cancelled_from.as_slice()
    }

    /// Returns the label of a task that has ended, what it noted, and the scopes, nurseries and events that it opened, as
    /// `label`, `entries` and `cancelled_from` do. Takes no memory.
    pub fn into_parts(self) -> (Label, Vec<Entry<'a>>, Vec<ScopeFrom>)
        ensures label { result.0 ≡ self.entry.label }
        ensures entries { result.1.items ≡ self.entry.entries.items }
        ensures cancelled_from { result.2.items ≡ self.entry.cancelled_from.items }
    {
        let Task {
            label,
            entries,
            cancelled_from,
            ..
        } = self;
        (label, entries, cancelled_from)
    }

    // Adds a frame inside the others.
    pub(crate) fn push(&mut self, frame: Frame<'a>) -> Result<(), AllocError>
        ensures stays { OnOk result (self.new ≡ record self.old { frames = self.new.frames }) }
        ensures items { OnOk result (self.new.frames.items ≡ self.old.frames.items ++ frame.entry ∷ []) }
        ensures frames { OnOk result ((children : ℕ → List ℕ) → frames_of children self.new.frames.items
            ≡ frame_of children frame.entry ∷ frames_of children self.old.frames.items) }
        ensures blocks { OnOk result (blocks_of self.new.frames.items ≡ block_in frame.entry (blocks_of self.old.frames.items)) }
        ensures received { OnOk result (received_in self.new.frames.items ≡ received_inside frame.entry (received_in self.old.frames.items)) }
    {
        self.frames.push(frame)?;
        Ok(())
    }
}
