ghost use Rattle.std.specs.Prelude.{◌≡◌, ◌≤◌, ◌+◌, ◌++◌, [], ◌∷◌, Some, None, IfOk, OnOk, OnErr, is_some, length, map, slice_get, slice_set, vec_capacity, vec_len};
ghost use Rattle.std.specs.List.{list_all};
ghost use Rattle.std.specs.Option.{option_map};
ghost use Rattle.exceptions.specs.Held.{exc_of};
ghost use Rattle.nursery_book.specs.Ends.{end_of};

use crate::ending::MemberEnd;
use crate::nursery_id::ChildIndex;
use exceptions::Exc;
use std::alloc::{AllocError, Global};
use std::marker::Model;

// The children of a nursery, in the order of their starts.
#[derive(Drop)]
pub(crate) struct Children {
    ends: Vec<MemberEnd>,
    // The number of children that run.
    running: usize,
}

impl Model for Children {
    ghost use Rattle.std.specs.Prelude.{List, map, ◌≡◌};
    ghost use Rattle.nursery_book.specs.Nursery.{End};
    ghost use Rattle.nursery_book.specs.EndCode.{ends_code};
    ghost use Rattle.nursery_book.specs.Ends.{end_of, running_in};

    ghost Value = { List End };

    ghost coded = { ends_code };

    ghost view = { λ c. map end_of c.ends.items };

    ghost invariant = { λ c. c.running ≡ running_in c.ends.items };
}

impl Children {
    // Creates the list with no child. Does not allocate.
    pub(crate) fn new(alloc: Global) -> Children
        ensures { result ≡ [] }
    {
        Children {
            ends: Vec::new(alloc),
            running: 0,
        }
    }

    // Returns an empty list with room for one exception of each child and one of the body.
    pub(crate) fn room(&self, alloc: Global) -> Result<Vec<Exc>, AllocError>
        ensures { IfOk result (λ room. (room.items ≡ []) × (length self.now + 1 ≤ vec_capacity room)) }
    {
        Vec::with_capacity(alloc, self.ends.len() + 1)
    }

    // Adds a running child and returns its index. If memory runs out, nothing changes.
    pub(crate) fn start(&mut self) -> Result<ChildIndex, AllocError>
        ensures started { OnOk result (self.new ≡ self.old ++ None ∷ []) }
        ensures index { IfOk result (λ index. index ≡ length self.old) }
        ensures err { OnErr result (self.new ≡ self.old) }
    {
        let index = self.ends.len();
        self.ends.push(MemberEnd::Running)?;
        self.running += 1;
        Ok(index)
    }

    // Records that the child at `index` ended, with this exception or without one.
    pub(crate) fn end(&mut self, index: ChildIndex, exc: Option<Exc>)
        requires { slice_get self.old index ≡ Some None }
        ensures { self.new ≡ slice_set self.old index (Some (option_map exc_of exc)) }
    {
        self.ends[index] = MemberEnd::Ended(exc);
        self.running -= 1;
    }

    // Returns whether all children have ended.
    pub(crate) fn all_ended(&self) -> bool
        ensures { result ≡ list_all is_some self.now }
    {
        self.running == 0
    }

    // Returns how each child ended.
    pub(crate) fn into_ends(self) -> Vec<MemberEnd>
        ensures ends { map end_of result.items ≡ self }
        ensures len { vec_len result ≡ length self }
    {
        self.ends
    }
}
