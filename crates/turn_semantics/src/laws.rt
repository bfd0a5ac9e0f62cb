//! The laws of steps and turns. Each function does nothing: its contract is the law.

ghost use Rattle.turn_semantics.specs.Laws.{
  EachStepGoes,
  EachTurnKeeps,
  EachStepStaysNew,
  EachTurnStaysNew,
  EachTurnStops,
  CancelledFromIsLowered,
  CancelledFromIsOpened,
  JobsBeginNew,
  TaskComesToTheSame,
};

/// One step of a task, by its innermost frame: for each table that agrees with the world's moments of cancellation, what is left
/// of the task results in the events of the step, followed by the result of what is left after it. The events are of this moment,
/// but for the starts of children, which begin a round later where there are rounds; signs are for labels of scopes and nurseries
/// that enclose the task, the children begun are numbered consecutively, and the weight does not increase.
pub fn law_step()
    ensures { EachStepGoes }
{}

/// A whole turn, from the wake to the next stop: it keeps the same promise, with less weight than before, and it ends. So
/// the result of the task after it is the same as before.
pub fn law_turn()
    ensures keeps { EachTurnKeeps }
    ensures stops { EachTurnStops }
    ensures same { TaskComesToTheSame }
{}

/// The moments of cancellation after a turn: each is lowered by exactly the signs made. That of a label entered in the turn
/// starts as its deadline.
pub fn law_cancelled_from()
    ensures lowered { CancelledFromIsLowered }
    ensures opened { CancelledFromIsOpened }
{}

/// If each name of a job is given once, the scopes and nurseries that enclose a task have different names, and none is
/// entered that has the name of an enclosing one. Each step and each turn keeps this, for the task and for each child
/// begun.
pub fn law_names()
    ensures job { JobsBeginNew }
    ensures step { EachStepStaysNew }
    ensures turn { EachTurnStaysNew }
{}
