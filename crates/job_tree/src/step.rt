ghost use Rattle.std.specs.Prelude.{◌≡◌};

use crate::deadline::Deadline;
use crate::name::Name;
use crate::object::{Ask, ObjectKind};
use crate::text::Text;
use std::marker::Model;

/// The `except` part of a `try`. It runs if the block of the `try` raised an exception with its name (as `except*` of Python
/// does).
#[derive(Drop)]
#[cycle(step)]
pub struct Handler {
    /// The name of the exceptions that it handles.
    pub name: Name,
    /// The block that it runs.
    pub body: Body,
}

/// One step of a block. Steps that read lines (`Find`, `Head`, `Longest` and `Need`) take no ticks.
#[derive(Drop)]
#[cycle(step)]
pub enum Step {
    /// Sleeps for the given number of ticks. This is a checkpoint.
    Sleep(u64),
    /// A checkpoint: a sleep of zero ticks.
    Checkpoint,
    /// Sleeps until tick 1,099,511,627,776. From that tick on, it is only a checkpoint.
    Forever,
    /// Sleeps one tick for every `n` lines of the task's part of the input, where `n` is the given number: the number of
    /// lines divided by `n`, rounded up.
    Pace(u64),
    /// Reports the lines of the task's part that contain the string.
    Find(Text),
    /// Reports the given number of lines from the start of the task's part.
    Head(u64),
    /// Reports the first of the longest lines of the task's part, if the part has a line.
    Longest,
    /// Reports the first line that contains the string, or raises an exception with the given name if no line contains it.
    Need {
        /// The string.
        text: Text,
        /// The name of the exception.
        name: Name,
    },
    /// Raises an exception with this name.
    Raise(Name),
    /// Cancels the enclosing scope or nursery with this name, from the next tick on, in format 3 from the next round on. This
    /// is not a checkpoint.
    Cancel(Name),
    /// Sets the enclosing event with this name, from the next round on. This is not a checkpoint. Only in format 3.
    Set(Name),
    /// Waits until the enclosing event with this name is set. It is a checkpoint if it is set already. Only in format 3.
    Wait(Name),
    /// Asks for something of the enclosing limiter or channel with this name, and waits until it is granted. Only in format 3.
    Ask {
        /// The name of the limiter or channel.
        name: Name,
        /// What is asked for.
        ask: Ask,
        /// The block that runs with what was granted. Empty if something is sent.
        body: Body,
    },
    /// Closes the enclosing channel with this name, at the end of the round. This is not a checkpoint. Only in format 3.
    Close(Name),
    /// A cancel scope.
    Scope {
        /// Its name.
        name: Name,
        /// When it is cancelled by itself.
        deadline: Deadline,
        /// Whether it is a shield: whether it hides cancellations of the enclosing scopes.
        shield: bool,
        /// Whether it raises `TooSlow` if it caught a cancellation and no other exception is left.
        fail: bool,
        /// The block that runs in it.
        body: Body,
    },
    /// A nursery. It ends when its body and all of its children have ended.
    Nursery {
        /// Its name.
        name: Name,
        /// When it is cancelled by itself. In a job of format 1: never.
        deadline: Deadline,
        /// Whether it is a shield: whether it hides cancellations of the enclosing scopes. In a job of format 1 it is not.
        shield: bool,
        /// The block that runs in it. The `start` steps directly in this block, and in a `repeat` in it, start the children.
        body: Body,
    },
    /// An event, which tasks that are started in its block can set and wait for. It is never cancelled. Only in format 3.
    Event {
        /// Its name.
        name: Name,
        /// The block that runs in it.
        body: Body,
    },
    /// A limiter or a channel, of which tasks that are started in its block can ask. It is never cancelled. Only in format 3.
    Object {
        /// Its name.
        name: Name,
        /// Which of the two it is.
        kind: ObjectKind,
        /// The block that runs in it.
        body: Body,
    },
    /// Starts a child in the nursery in whose body this step is, or one child for each cut of the task's part of the input.
    Start {
        /// The name of the child.
        name: Name,
        /// Into how many cuts the part is divided, with one child for each. `None`: a single child gets the whole part.
        over: Option<u64>,
        /// The block that the child runs.
        body: Body,
    },
    /// Runs its block the given number of times, one pass after the other, and stops at the first exception. It takes no
    /// ticks and is not a checkpoint.
    Repeat {
        /// The number of passes.
        count: u64,
        /// Whether the task's part of the input is divided into as many cuts as there are passes, and each pass has its cut.
        /// Only in format 3.
        over: bool,
        /// The block that runs in each pass.
        body: Body,
    },
    /// A `try` with a handler, a cleanup, or both.
    Try {
        /// The block that is tried.
        body: Body,
        /// What runs if the block raised a matching exception.
        handler: Option<Handler>,
        /// The block that always runs at the end.
        cleanup: Option<Body>,
    },
}

/// The steps of a block, in order. In contracts, it is a block of the job's tree.
#[derive(Drop)]
#[cycle(step)]
pub struct Body {
    steps: Vec<Step>,
}

impl Model for Body {
    ghost use Rattle.job_tree.specs.Tree.{Steps};
    ghost use Rattle.job_tree.specs.TreeCode.{steps_code};
    ghost use Rattle.job_tree.specs.Weigh.{weight_of};

    ghost Value = { Steps };

    ghost coded = { steps_code };

    ghost use Rattle.job_tree.specs.Blocks.{steps_of};

    ghost view = { λ b. steps_of b.steps.items };

    ghost size = { weight_of };

    ghost use Rattle.job_tree.specs.BodyFalls.{body_falls};

    ghost size_decreases = { λ a h. body_falls a.steps.items };
}

impl Body {
    ghost use Rattle.job_tree.specs.Blocks.{steps_of};

    /// Makes a block of these steps. Does not allocate.
    pub fn new(steps: Vec<Step>) -> Body
        ensures { result ≡ steps_of steps.items }
    {
        Body { steps }
    }

    /// Returns the steps of the block, in order.
    pub fn as_slice(&self) -> &[Step]
        ensures { steps_of result.now ≡ self.now }
    {
        self.steps.as_slice()
    }

    /// Returns the steps of the block as the vector that the block was made of. Does not allocate.
    pub fn into_vec(self) -> Vec<Step>
        ensures { steps_of result.items ≡ self }
    {
        self.steps
    }
}
