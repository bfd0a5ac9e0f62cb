use crate::rule::Hand;
use atomic_table::Seat;

/// A ticket: the right of one thread to draw numbers. It cannot be copied and takes no bytes at run time. Contracts see the
/// numbers that it drew.
#[derive(Drop)]
pub struct Pass {
    pub(crate) seat: Seat<(), Hand>,
}
