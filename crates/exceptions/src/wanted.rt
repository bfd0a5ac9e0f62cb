use job_tree::Name;

/// Which leaves of an exception a split selects.
#[derive(Clone, Copy)]
pub enum Match {
    /// The leaves with that name. A `TooSlow` leaf has the name `TooSlow`.
    Name(Name),
    /// The `Cancelled` leaves.
    Cancelled,
}
