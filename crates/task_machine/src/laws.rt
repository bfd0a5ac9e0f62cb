//! The laws of scopes and of the enclosing scopes, nurseries and events of a task (its places). Each function does nothing: its
//! contract is the law.

ghost use Rattle.task_machine.specs.Laws.{CatchAlike, EnteredAlike, FoundAlike, SeenAlike, SetAlike, SignedAlike};

/// If the open scopes and events that enclose a task correspond to its places by their labels, shields and moments of
/// cancellation, both show the same cancellations, catch the same, and find the same scope, or event, by a name. They continue to
/// correspond: cancelling a scope or setting an event lowers the from of its label, and entering one opens its label.
pub fn law_places()
    ensures seen { SeenAlike }
    ensures caught { CatchAlike }
    ensures found { FoundAlike }
    ensures signed { SignedAlike }
    ensures set { SetAlike }
    ensures entered { EnteredAlike }
{}
