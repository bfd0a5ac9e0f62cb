ghost use Rattle.std.specs.Prelude.{◌≡◌, IfOk};
ghost use Rattle.job_story.specs.Heres.{label_in, block_in, event_in};

use crate::block::Block;
use crate::stack::{Level, Stack};
use crate::{CancelledFrom, Kind};
use exceptions::Label;
use input_lines::Part;
use job_meaning::{Clock, GrantTable};
use job_tree::Name;
use std::alloc::{AllocError, Global};

/// A point of the walk: the task, its part of the input, and the scopes, nurseries and events that enclose it. It is copied, and
/// changed by struct update, when the walk enters a block or a started task.
#[derive(Clone, Copy)]
pub struct Here<'a, 's> {
    /// The allocator for events, labels and exceptions.
    pub alloc: Global,
    /// How the job's time is counted.
    pub clock: Clock,
    /// The moment from which each scope and nursery is cancelled, and each event set.
    pub cancelled_from: &'s CancelledFrom,
    /// What limiters and channels granted.
    pub grants: &'s GrantTable<'a>,
    /// The task's part of the input, or its cut for the pass of a `repeat over` that the walk is in.
    pub part: Part<'a>,
    /// The task's label.
    pub task: &'s Label,
    /// A label with the indices of everything that is entered or started here: the task's own, followed by the number of each
    /// `repeat` pass that the walk is in.
    pub place: &'s Label,
    /// The open scopes and nurseries, innermost first, including those of the tasks that started this one.
    pub scopes: &'s Stack<'s>,
    /// The events that enclose the task, innermost first.
    pub events: &'s Stack<'s>,
    /// Whether the walk is in a `finally` block, of this task or of one that started it.
    pub in_cleanup: bool,
}

impl<'a, 's> Here<'a, 's> {
    // Returns the label of a scope, nursery, event or task of that name that is entered or started here.
    pub(crate) fn label_here(&self, name: Name) -> Result<Label, AllocError>
        ensures { IfOk result (λ label. label ≡ label_in name self.now) }
    {
        self.place.with_name(self.alloc, name)
    }

    // Returns the scope or nursery of that name that is entered here, with its label and the moment from which it is cancelled.
    #[inline(never)]
    pub(crate) fn block(
        &self,
        kind: Kind,
        name: Name,
        deadline: Option<u64>,
        shield: bool,
    ) -> Result<Block, AllocError>
        ensures { IfOk result (λ block. block ≡ block_in kind name deadline shield self.now) }
    {
        let label = self.label_here(name)?;
        let from = self.cancelled_from.of(&label);
        Ok(Block {
            kind,
            label,
            deadline,
            shield,
            from,
        })
    }

    // Returns the event of that name that is entered here, with its label and the moment from which it is set.
    #[inline(never)]
    pub(crate) fn event(&self, name: Name) -> Result<Level, AllocError>
        ensures { IfOk result (λ event. event ≡ event_in name self.now) }
    {
        let label = self.label_here(name)?;
        let from = self.cancelled_from.of(&label);
        Ok(Level {
            label,
            shield: false,
            from,
        })
    }
}
