ghost use Rattle.std.specs.Prelude.{◌≡◌, Option, ◌&&◌, reverse};
ghost use Rattle.std.specs.Option.{option_copied, option_map};
ghost use Rattle.cancel_scopes.specs.Sight.{sight, catches};
ghost use Rattle.job_meaning.specs.Walk.{event_on, label_on, home_of, stack_for};
ghost use Rattle.job_story.specs.Tell.{is_from, seer};
ghost use Rattle.job_story.specs.Stacks.{level_of, levels_of};

use crate::own::from_for;
use cancel_scopes::{earlier, is_reached};
use exceptions::Label;
use job_tree::Name;

/// An open scope or nursery, or an event that encloses a task.
#[derive(Drop)]
pub struct Level {
    /// Its label.
    pub label: Label,
    /// Whether it hides the cancellations of the levels that enclose it. An event does not.
    pub shield: bool,
    /// The moment from which it is cancelled, or set if it is an event, or `None` for never.
    pub from: Option<u64>,
}

/// The scopes and nurseries that are open at a point of the walk, innermost first. The events that enclose it are another stack.
#[derive(Drop)]
pub enum Stack<'s> {
    /// No level.
    Empty,
    /// The innermost level, and those that enclose it.
    Within(Level, &'s Stack<'s>),
}

impl<'s> Stack<'s> {
    // Returns the effective deadline (`sight`): the earliest moment from which a cancellation is seen inside this stack, or
    // `None` for never. Levels outside the first shielded one do not count.
    pub(crate) fn sight(&self) -> Option<u64>
        ensures { result ≡ sight (levels_of self.now) }
    {
        match self {
            Stack::Empty => None,
            Stack::Within(level, _) if level.shield => level.from,
            Stack::Within(level, outer) => earlier(level.from, outer.sight()),
        }
    }

    // Returns the same for a task that has cancelled some labels itself in this moment.
    pub(crate) fn sight_for(&self, cancelled: &[Label], moment: u64) -> Option<u64>
        ensures { result ≡ sight (stack_for (reverse cancelled.now) moment (levels_of self.now)) }
    {
        match self {
            Stack::Empty => None,
            Stack::Within(level, _) if level.shield => {
                from_for(cancelled, moment, &level.label, level.from)
            }
            Stack::Within(level, outer) => {
                let from = from_for(cancelled, moment, &level.label, level.from);
                earlier(from, outer.sight_for(cancelled, moment))
            }
        }
    }

    // Returns the label of the innermost level, in which a task that starts here is started, or `None` for an empty stack.
    pub(crate) fn home(&self) -> Option<&Label>
        ensures { option_copied result ≡ home_of (levels_of self.now) }
    {
        match self {
            Stack::Empty => None,
            Stack::Within(level, _) => Some(&level.label),
        }
    }

    // Returns the label of the innermost level of that name, if there is one.
    pub(crate) fn label_on(&self, name: &Name) -> Option<&Label>
        ensures { option_copied result ≡ label_on name.now (levels_of self.now) }
    {
        match self {
            Stack::Empty => None,
            Stack::Within(level, _) if *name == level.label.name() => Some(&level.label),
            Stack::Within(_, outer) => outer.label_on(name),
        }
    }

    // Returns the innermost level of that name, if there is one.
    pub(crate) fn level_on(&self, name: &Name) -> Option<&Level>
        ensures { option_map level_of (option_copied result) ≡ event_on name.now (levels_of self.now) }
    {
        match self {
            Stack::Empty => None,
            Stack::Within(level, _) if *name == level.label.name() => Some(level),
            Stack::Within(_, outer) => outer.level_on(name),
        }
    }

    // Returns the label of the innermost level that is cancelled from exactly that moment, if there is one. Levels outside the
    // first shielded one do not count.
    pub(crate) fn seer(&self, from: u64) -> Option<&Label>
        ensures { option_copied result ≡ seer (levels_of self.now) from }
    {
        match self {
            Stack::Empty => None,
            Stack::Within(level, _) if is_from(level.from, from) => Some(&level.label),
            Stack::Within(level, _) if level.shield => None,
            Stack::Within(_, outer) => outer.seer(from),
        }
    }

    // Returns whether a scope or nursery directly inside this stack that is left in a moment catches `Cancelled`: it is itself
    // cancelled by then, and no cancellation of the stack is seen through it. The task has cancelled some labels itself in that
    // moment.
    pub(crate) fn catches(
        &self,
        from: Option<u64>,
        shield: bool,
        cancelled: &[Label],
        moment: u64,
    ) -> bool
        ensures { result ≡ catches from shield (stack_for (reverse cancelled.now) moment (levels_of self.now)) moment }
    {
        is_reached(from, moment)
            && (shield || !is_reached(self.sight_for(cancelled, moment), moment))
    }
}

// Whether a level is cancelled from exactly this moment.
fn is_from(from: Option<u64>, moment: u64) -> bool
    ensures { result ≡ is_from from moment }
{
    match from {
        None => false,
        Some(from) => from == moment,
    }
}
