ghost use Rattle.std.specs.Prelude.{◌≡◌, [], ◌∷◌, ◌++◌, IfOk};
ghost use Rattle.std.specs.Hash as fed;
ghost use Rattle.std.specs.Cmp.{partial_equiv_from_equiv};
ghost use Rattle.std.specs.Cmp.Rules.{hashing};
ghost use Rattle.std.proofs.Common.{rules};
ghost use Rattle.exceptions.specs.Labels.{same_label, same_label_equiv};

use job_tree::Name;
use smallvec::SmallVec;
use std::alloc::{AllocError, Global};
use std::hash::{Hash, Hasher};
use std::marker::Model;

/// The label of a task, scope or nursery of a run: its name, and one index for each copy of a `start .. over` and each
/// pass of a `repeat` that it is in, outermost first. It is printed as `p.1`.
#[derive(Drop)]
pub struct Label {
    name: Name,
    indices: SmallVec<u64, 2>,
}

impl Model for Label {
    ghost use Rattle.exceptions.specs.ExcCode.{label_code};
    ghost use Rattle.exceptions.specs.Exceptions as tree;

    ghost Value = { tree.Label };

    ghost coded = { label_code };

    ghost view = { λ l. record { name = l.name; indices = l.indices.items } };
}

impl Label {
    /// Creates a label with this name and no index, for what is in no copy of a `start .. over` and in no pass of a
    /// `repeat`. Does not allocate.
    pub fn new(alloc: Global, name: Name) -> Label
        ensures { result ≡ record { name = name; indices = [] } }
    {
        Label {
            name,
            indices: SmallVec::new(alloc),
        }
    }

    /// Returns the name.
    pub fn name(&self) -> Name
        ensures { result ≡ self.now.name }
    {
        self.name
    }

    /// Returns the indices of copies and of passes, outermost first.
    pub fn indices(&self) -> &[u64]
        ensures { result.now ≡ self.now.indices }
    {
        self.indices.as_slice()
    }

    /// Returns an equal label, or `AllocError` if memory runs out.
    pub fn copy(&self, alloc: Global) -> Result<Label, AllocError>
        ensures { IfOk result (λ label. label ≡ self.now) }
    {
        self.with_name(alloc, self.name)
    }

    /// Returns the label with `name` and the same indices, or `AllocError` if memory runs out.
    pub fn with_name(&self, alloc: Global, name: Name) -> Result<Label, AllocError>
        ensures { IfOk result (λ label. label ≡ record { name = name; indices = self.now.indices }) }
    {
        let indices = SmallVec::from_slice(alloc, self.indices.as_slice())?;
        Ok(Label { name, indices })
    }

    /// Returns the label with one more index, which is the innermost, or `AllocError` if memory runs out.
    pub fn with_index(self, index: u64) -> Result<Label, AllocError>
        ensures { IfOk result (λ label. label ≡ record { name = self.name; indices = self.indices ++ index ∷ [] }) }
    {
        let mut indices = self.indices;
        indices.push(index)?;
        Ok(Label {
            name: self.name,
            indices,
        })
    }
}

impl PartialEq for Label {
    ghost eq = { same_label };

    ghost laws = { partial_equiv_from_equiv same_label_equiv };

    fn eq(&self, other: &Label) -> bool {
        self.name() == other.name() && self.indices() == other.indices()
    }
}

impl Eq for Label {
    ghost laws = { same_label_equiv };
}

impl Hash for Label {
    ghost hash_input = { λ label. fed.slice fed.u8 label.name ++ fed.slice fed.u64 label.indices };

    ghost respects_eq = { Prim.search (hashing, rules) };

    fn hash<H: Hasher>(&self, state: &mut H) {
        self.name().hash(state);
        self.indices().hash(state);
    }
}
