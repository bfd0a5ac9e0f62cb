ghost use Rattle.std.specs.Prelude.{◌≡◌};

use std::marker::Model;

/// The id of an open scope of a tree, as `ScopeTree::open` returns it. Once the scope is closed, the tree may use the id
/// again.
#[derive(Clone, Copy, Debug, PartialEq, Eq)]
pub struct ScopeId {
    pub(crate) key: usize,
}

impl Model for ScopeId {
    ghost use Rattle.std.specs.Prelude.{ℕ};

    ghost Value = { ℕ };

    ghost view = { λ id. id.key };

    ghost inverse = { λ key. record { key = key } };
}

impl ScopeId {
    /// Returns the number of the scope. Another scope may get the same number once this one is closed.
    pub fn key(self) -> usize
        ensures { result ≡ self }
    {
        self.key
    }
}

// Returns the number of the scope, if there is a scope.
pub(crate) fn key_of(id: Option<ScopeId>) -> Option<usize>
    ensures { result ≡ id }
{
    id.map(ScopeId::key)
}
