//! The laws of stories. The functions do nothing: their contracts are the laws.

ghost use Rattle.job_story.specs.Laws.{CancelledFromGivesTheTable, StoriesAreTrue, TellingIsFollowing};
ghost use Rattle.job_story.specs.LawsOfCauses.{BlocksAreNested, CancellationsAreSeen, CancellationsHaveCauses, CancellationsHaveCausesByLimit, CausesAreShown, ConcernedTasksAreClosed, CancelledFromHasCauses, TimePassesAsleep};

/// A law, which does nothing at run time. The story of a job by two tables, from which moment each label is cancelled and what
/// limiters and channels grant, is the log of following these tables, with more said of each step. So the story by settled tables
/// is true: its starts, ends, outcomes and entries are the records of the job's meaning, its deadlines and signs determine the
/// table of the meaning, and what is done to limiters and channels determines what these grant.
pub fn law_story()
    ensures follows { TellingIsFollowing }
    ensures truth { StoriesAreTrue }
{}

/// A law, which does nothing at run time. The ticks from which the scopes and nurseries of a meaning are cancelled, as a run
/// returns them, make the table of the meaning. So the story by that table is the story of the meaning.
pub fn law_cancelled_from_of_meaning()
    ensures { CancelledFromGivesTheTable }
{}

/// A law, which does nothing at run time. Where a story says by which scope or nursery a task is cancelled, that scope or nursery
/// encloses the task, no shield hides it from the task, and it is the innermost that is cancelled from the task's effective
/// deadline on. A task that slept, or waited for an event or in the queue of a limiter or channel, is cancelled in that tick, and
/// a task at a checkpoint, or one that was to ask a limiter or channel, in that tick or later. Of a task that does not ask, since
/// it sees a cancellation, a story may name none.
pub fn law_blame()
    ensures { CancellationsAreSeen }
{}

/// A law, which does nothing at run time. The scopes and nurseries of a story are nested: a task leaves, and waits for, the
/// innermost that is open, has left all that it entered when it ends, and starts tasks in the innermost. Events, limiters and
/// channels do not count here. A `cancel` step cancels the innermost of its name. One that is left catches if it is cancelled by
/// then, and is shielded or no cancellation is seen outside of it; the story says so, and which exception propagates.
pub fn law_nesting()
    ensures { BlocksAreNested }
{}

/// A law, which does nothing at run time. In a story the time of a task passes only while it sleeps, or waits for a nursery, for
/// an event, or in the queue of a limiter or channel. The next thing that it does after it fell asleep until a tick is in that
/// tick, or is its cancellation, at most in that tick. After it began to wait for an event, it goes on in exactly the moment from
/// which the event is set, or is cancelled before. After it began to wait in a queue, it is granted something there, finds the
/// channel closed, has waited as long as `forever`, or is cancelled, each in a later moment; and where it is granted something
/// without a wait, it asked in the moment before. A story says that a task was cancelled while it slept only of a task that
/// sleeps, and while it waited for an event or in a queue only of one that waits for this event, or in this queue, and since
/// when.
pub fn law_waking()
    ensures { TimePassesAsleep }
{}

/// A law, which does nothing at run time. A cause that a story names for a cancellation is shown by its events. A deadline is the
/// one with which a task entered the scope or nursery, and is exactly the tick from which that is cancelled. Any other cause is
/// an event of the named task in the named tick, which is the one before the cancellation: its `cancel`, or the end of the task
/// or of its body of the nursery with an exception, which has a leaf that is not `Cancelled` where the story says that it failed,
/// and none where it says that it was cancelled. That an event is set has as cause a `set` in the tick before. By settled tables,
/// where names are given once, every cancellation in the story of a job names a scope or nursery that has a cause, also in the
/// story up to a limit, where it is among the events up to the limit; only where a task does not ask a limiter or channel may
/// none be named. Each event that is set has a cause among the events of the whole story.
pub fn law_causes()
    ensures shown { CausesAreShown }
    ensures complete { CancellationsHaveCauses }
    ensures cancelled_from { CancelledFromHasCauses }
    ensures limited { CancellationsHaveCausesByLimit }
{}

/// A law, which does nothing at run time. The tasks that concern a task are closed: it is one of them, and for each cancellation
/// of one of them the task that caused it is one of them too.
pub fn law_focus()
    ensures { ConcernedTasksAreClosed }
{}
