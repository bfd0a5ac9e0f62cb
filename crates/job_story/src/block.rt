use crate::Kind;
use exceptions::Label;

/// A scope or nursery that a task enters.
#[derive(Drop)]
pub struct Block {
    /// Whether it is a scope or a nursery.
    pub kind: Kind,
    /// Its label.
    pub label: Label,
    /// The moment from which its deadline cancels it, or `None` for never.
    pub deadline: Option<u64>,
    /// Whether it hides the cancellations of the levels that enclose it.
    pub shield: bool,
    /// The moment from which it is cancelled, or `None` for never.
    pub from: Option<u64>,
}
