use exceptions::Label;
use job_tree::ObjectKind;

/// What a task did to a limiter or channel. It is served at the end of the round.
#[derive(Drop)]
pub struct ObjectAct {
    /// The label of the limiter or channel.
    pub object: Label,
    /// What was done.
    pub act: Act,
}

/// What is done to a limiter or channel, besides what tasks ask of it.
#[derive(Clone, Copy)]
pub enum Act {
    /// It is opened.
    Opens(ObjectKind),
    /// A token comes back, since the block of an `acquire` ended.
    GivesBack,
    /// It is closed.
    Closes,
}
