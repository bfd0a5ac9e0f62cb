//! The laws of the tasks of the program (a `RunState`). The function does nothing: its contract is the law.

ghost use Rattle.std.specs.Prelude.{◌≡◌};
ghost use Rattle.run_refinement.specs.Laws.{
  GrantsAreTheMeaning,
  RunStatesAreInTime,
  RunStatesBegin,
  RunStatesEnd,
  RunStatesGoOn,
  RunStatesJump,
  RunStatesLeave,
  RunStatesServe,
  RunStatesTake,
  RunStatesTurn,
  StopsSay,
  TasksAreFew,
  TasksFit,
  TurnsAreFew,
};

/// The tasks of the program and their world (`Refines`) are a run of the definitions in turns, from its first moment to
/// its end:
///
/// * The root alone in a new world is one.
/// * Each task that has not ended has what a turn of it requires: its scopes and nurseries are open, and what else is open
///   in them belongs to tasks that it waits for.
/// * It stays one when a task that may continue takes a turn, with the tasks that this one started. What the turn's stop
///   says of the task is true; and if the task ended, it has ended in the definitions, in the same moment and with the
///   same exception. It is one again after the end of that task is recorded in its nursery.
/// * It stays one when the started tasks are taken from the world; when what was done to limiters and channels in a moment is served,
///   in the order of records, after which it is known what they grant for the next one; and when the clock jumps to a moment before
///   which no task continues. One has a moment in which it continues then, if one has not ended.
/// * While a task has not ended, the job does not end before the present tick. There are at most twice as many turns as the
///   job has steps, plus one, and at most as many tasks that have not ended.
/// * When all tasks have ended, what is kept of them is the records, the moments of cancellation and the end that the job means,
///   and what was granted is what its limiters and channels grant.
pub fn law_states()
    ensures begin { RunStatesBegin }
    ensures fit { TasksFit }
    ensures turn { RunStatesTurn }
    ensures stop { StopsSay }
    ensures leave { RunStatesLeave }
    ensures take { RunStatesTake }
    ensures serve { RunStatesServe }
    ensures jump { RunStatesJump }
    ensures go_on { RunStatesGoOn }
    ensures in_time { RunStatesAreInTime }
    ensures turns { TurnsAreFew }
    ensures tasks { TasksAreFew }
    ensures over { RunStatesEnd }
    ensures grants { GrantsAreTheMeaning }
{}
