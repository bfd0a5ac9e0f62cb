/// The role of a token of a job text: whether it is a name, and of what.
#[derive(Clone, Copy, Debug, PartialEq, Eq)]
pub enum Role {
    /// Not a name.
    Plain,
    /// The name that a job, scope, nursery, event, limiter, channel or started task gets.
    Given,
    /// The name of an exception that is raised.
    Raised,
    /// The name of the exceptions that a handler handles.
    Handled,
    /// The name in a step that uses one: that of a scope, nursery, event, limiter or channel around it.
    Target,
}
