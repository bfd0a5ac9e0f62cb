/// What tasks share: a limiter or a channel. Only in format 3.
#[derive(Clone, Copy, Debug, PartialEq, Eq)]
pub enum ObjectKind {
    /// A limiter with this number of tokens, 1 to 1,000,000, as Trio's `CapacityLimiter`.
    Limiter(u64),
    /// A channel whose buffer has this number of places, 0 to 1,000,000, as Trio's memory channel. It carries parts of the input.
    Channel(u64),
}

/// What a task asks of a limiter or a channel. It waits until that is granted.
#[derive(Clone, Copy, Debug, PartialEq, Eq)]
pub enum Ask {
    /// A token of a limiter, which comes back when the block of the step ends.
    Acquire,
    /// To send its part to a channel. The block of the step is empty.
    Send,
    /// To receive a part from a channel, which is the task's part in the block of the step.
    Receive,
}
