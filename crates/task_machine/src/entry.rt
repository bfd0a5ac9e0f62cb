//! What tasks leave: what a task noted, and from which moment a scope was cancelled.
use exceptions::Label;
use input_lines::Line;
use job_tree::Ask;

/// What a task noted for the report. Entries are in the order in which it noted them.
#[derive(Drop)]
pub enum Entry<'a> {
    /// A line that a kernel answered, borrowed from the input.
    Line(Line<'a>),
    /// A cancel scope that the task left.
    Scope {
        /// The scope's label, boxed so that an entry for a line takes no space for one.
        label: Box<Label>,
        /// The tick in which the task left the scope.
        tick: u64,
        /// Whether the scope caught a `Cancelled`.
        caught: bool,
    },
    /// A nursery that the task left.
    Nursery {
        /// The nursery's label, boxed as a scope's is.
        label: Box<Label>,
        /// The tick in which its last member ended and the task left it.
        tick: u64,
        /// Whether the nursery caught a `Cancelled`.
        caught: bool,
    },
    /// An event for which the task waited until it was set.
    Wait {
        /// The event's label, boxed as a scope's is.
        label: Box<Label>,
        /// The tick in which the task went on.
        tick: u64,
    },
    /// What the task asked of a limiter or channel, and was granted.
    Granted {
        /// What it asked for.
        ask: Ask,
        /// The label of the limiter or channel, boxed as a scope's is.
        label: Box<Label>,
        /// The tick in which the task went on.
        tick: u64,
    },
}

/// A cancel scope or nursery, and the moment from which it was cancelled; or an event, and the moment from which it was set.
#[derive(Drop)]
pub struct ScopeFrom {
    /// The label of the scope, nursery or event.
    pub label: Label,
    /// The moment from which the scope or nursery itself was cancelled, by its deadline or by a `cancel` or a failed member. It
    /// is not an effective deadline: cancellations of enclosing scopes do not count. Of an event, the moment from which it was
    /// set. `None` if it never was cancelled, or set, and until it is left.
    pub seen: Option<u64>,
}
