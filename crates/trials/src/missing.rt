use job_tree::Name;

/// Why a job text does not have the number that is meant.
#[derive(Clone, Copy)]
pub enum Missing {
    /// No scope or nursery has the name.
    NoBlock {
        /// The name of a scope or nursery that is nearest to it, or `None` if the job has neither.
        nearest: Option<Name>,
    },
    /// The first scope or nursery with that name has no deadline.
    NoDeadline,
    /// The text has no such line, or the line has no such column.
    NoPlace,
    /// No number with a value begins at the place.
    NoNumber {
        /// The place, in bytes from the start of the text.
        at: usize,
    },
}
