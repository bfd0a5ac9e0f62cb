ghost use Rattle.std.specs.Prelude.{◌≡◌};
ghost use Rattle.job_lint.specs.Warnings.{warn_if};

use job_tree::Name;

/// What is probably wrong at a place of a job.
#[derive(Clone, Copy, Debug, PartialEq, Eq)]
pub enum Lint {
    /// A step directly after a `forever` or a `raise` in the same block. It never runs.
    Unreachable,
    /// A `sleep`, `checkpoint`, `forever`, `pace`, `wait`, `acquire`, `send` or `receive` in a cleanup that no shield inside the
    /// cleanup encloses. It is cut off if the task is cancelled.
    ExposedWait,
    /// A `raise` in a cleanup. Its exception replaces the one that the cleanup began with.
    RaiseInCleanup,
    /// A scope or nursery with `shield` and without a deadline, with a wait in it that is not in an inner scope or nursery with
    /// a deadline. Nothing outside can cancel that wait.
    ShieldWithoutDeadline,
    /// A scope with neither a deadline nor `shield`, with no `cancel` in it that names it, which has `fail`, or which nothing
    /// else can end early: nothing in it raises, and nothing around it can be cancelled. So nothing cancels it.
    IdleScope,
    /// A handler of exceptions that nothing in the block of its `try` raises, or of `TooSlow` if no scope in that block has
    /// `fail`. It never runs.
    IdleHandler,
    /// An event with no `set` in it that names it. So nothing sets it.
    UnsetEvent,
    /// An event with a `set` in it that names it, and no `wait` that does. So nothing waits for it.
    UnawaitedEvent,
    /// A limiter with no `acquire` in it that names it. So nothing asks for one of its tokens.
    UnusedLimiter,
    /// A limiter of which a token is asked for while one of a limiter in it is held, and the other way round: each in the block of
    /// an `acquire`, by one task. So two tasks may wait for each other.
    OrderInversion,
    /// A channel with neither a `send` nor a `close` in it that names it. So a `receive` waits for ever.
    UnsentChannel,
    /// A channel with no `receive` in it that names it. So nothing takes what is sent.
    UnreceivedChannel,
    /// A channel with no `close` in it that names it, and with a `receive` in a `repeat`, or in a task that is started in one. So
    /// that `receive` may wait for ever.
    UnclosedChannel,
    /// In a job of format 1 or 2, a `cancel` in a cleanup or handler that names a scope or nursery around that cleanup or
    /// handler. It is seen a tick later than in Trio, where the task may see another cancellation before.
    LateCancel,
}

/// A probable mistake in a job text.
#[derive(Clone, Copy)]
pub struct Warning {
    /// The place of the keyword that the warning is about, in bytes from the start of the text: the first keyword of the step,
    /// or the `except`.
    pub at: usize,
    /// What is probably wrong there.
    pub lint: Lint,
    /// The name of the handler, or of the scope, nursery, event, limiter or channel, or `None` if the warning is about another
    /// step.
    pub name: Option<Name>,
}

// Returns a warning, if what it warns of holds.
pub(crate) fn warn_if(holds: bool, at: usize, lint: Lint, name: Option<Name>) -> Option<Warning>
    ensures { result ≡ warn_if holds (record { at = at; lint = lint; name = name }) }
{
    if holds {
        Some(Warning { at, lint, name })
    } else {
        None
    }
}
