use std::marker::Model;

/// The index of a child in its nursery: the number of children that were started before it.
pub type ChildIndex = usize;

/// The id of an open nursery of a book, as `NurseryBook::open` returns it. A contract sees an id as a key. Once the nursery
/// is closed, the book may use the id again.
#[derive(Clone, Copy, Debug, PartialEq, Eq)]
pub struct NurseryId {
    pub(crate) key: usize,
}

impl Model for NurseryId {
    ghost use Rattle.std.specs.Prelude.{ℕ};

    ghost Value = { ℕ };

    ghost view = { λ id. id.key };

    ghost inverse = { λ key. record { key = key } };
}
