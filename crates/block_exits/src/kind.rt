/// What a block with a cancel scope of its own is.
#[derive(Clone, Copy, Debug, PartialEq, Eq)]
pub enum Kind {
    /// A cancel scope. A `fail` scope raises `TooSlow` if it caught a cancellation and nothing else is left.
    Scope {
        /// Whether it is a `fail` scope.
        fail: bool,
    },
    /// A nursery.
    Nursery,
}
