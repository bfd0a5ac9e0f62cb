//! The laws of runs in turns. The functions do nothing: their contracts are the laws.

ghost use Rattle.interleavings.specs.Laws.{
  BlockedRunsGoOn,
  GrantsAreKnown,
  LastToLeave,
  LimitsAreExact,
  OrdersExist,
  RoundsAreFew,
  RoundsStayInTicks,
  RunsAreTheMeaning,
  RunsEnd,
  RunsKeepInvariant,
  TasksAreHoused,
};

/// For each settled table, every run in turns agrees with the table (`RunInvariant`), whatever the order in which tasks have
/// their turns: nothing that was not done yet happens before the present moment, and the table agrees there with the moments of
/// cancellation that the run keeps. When all tasks have ended, the records, the moments of cancellation and the end that are read
/// from their rows are those of the meaning. While a task has not ended, the job does not end before the present tick; and if no
/// task is ready, one has a next turn. A run takes at most twice as many turns as the job has steps (including those of children)
/// plus one. A task that has not ended is the root, or is in an unsettled nursery of the task that started it; and the task that
/// leaves a scope or nursery is the last one in it. Where a tick has rounds, the round in which a task stopped last and the weight
/// of what all tasks have left are together at most twice the number of steps plus one: so no round overflows into the next tick.
pub fn law_runs()
    ensures interleaving { RunsKeepInvariant }
    ensures meaning { RunsAreTheMeaning }
    ensures limit { LimitsAreExact }
    ensures next { BlockedRunsGoOn }
    ensures turns { RunsEnd }
    ensures housed { TasksAreHoused }
    ensures last { LastToLeave }
    ensures rounds { RoundsAreFew }
    ensures room { RoundsStayInTicks }
{}

/// What limiters and channels grant up to a moment before which nothing happens that was not done yet is what they grant by what the
/// tasks of the run did to them before it, in the order of records (`specs/Acts.antt`): what each task has made known, and what it
/// asked, if it is still in a queue. So a program that serves in each round what was done in it grants what any settled tables say.
/// The tasks of a run have such an order.
pub fn law_grants()
    ensures grants { GrantsAreKnown }
    ensures order { OrdersExist }
{}
