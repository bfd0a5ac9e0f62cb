ghost use Rattle.std.specs.Prelude.{◌≡◌, ℕ, true, Some, None, IsSome, IfOk, OnOk, OnErr, length, slice_get};
ghost use Rattle.std.specs.Option.{option_map};
ghost use Rattle.exceptions.specs.Held.{exc_of};

use crate::children::Children;
use crate::ending::{MemberEnd, member_excs};
use crate::nursery_id::{ChildIndex, NurseryId};
use cancel_scopes::ScopeId;
use clock::TaskId;
use exceptions::{Exc, Label, Whose, group};
use slab::Slab;
use std::alloc::{AllocError, Global};

/// The open nurseries of a program, each with its members.
///
/// The caller must ensure that each id passed is that of an open nursery, that children start only while the body runs,
/// that each member ends once, and that a nursery is closed only when all its members have ended.
#[derive(Drop)]
pub struct NurseryBook {
    alloc: Global,
    nurseries: Slab<Members>,
}

// A nursery. Its children are in the order of their starts, and `last` is the moment in which a member ended last.
#[derive(Drop)]
struct Members {
    scope: ScopeId,
    waiter: TaskId,
    label: Label,
    body: MemberEnd,
    children: Children,
    last: u64,
}

impl NurseryBook {
    ghost use Rattle.nursery_book.specs.Nursery.{new_nursery, with_start, with_child, with_body, is_settled, raised_by};
    ghost use Rattle.nursery_book.specs.Book.{nursery_at, HasNursery, SameNurseries, Updates, Changes};

    /// Creates a book with no open nursery. Does not allocate.
    pub fn new(alloc: Global) -> NurseryBook
        ensures { (key : ℕ) → nursery_at result key ≡ None }
    {
        NurseryBook {
            alloc,
            nurseries: Slab::new(alloc),
        }
    }

    /// Opens a nursery with its cancel scope, the task that will wait for it, and its label, and returns its id. Its body
    /// runs, and it has no child. Returns `AllocError` if memory runs out; every nursery then stays as it is.
    pub fn open(
        &mut self,
        scope: ScopeId,
        waiter: TaskId,
        label: Label,
    ) -> Result<NurseryId, AllocError>
        ensures fresh { IfOk result (λ id. nursery_at self.old id ≡ None) }
        ensures opened { IfOk result (λ id. Updates self.old self.new id (Some (new_nursery scope waiter label))) }
        ensures err { OnErr result (SameNurseries self.old self.new) }
    {
        let key = self.nurseries.insert(Members {
            scope,
            waiter,
            label,
            body: MemberEnd::Running,
            children: Children::new(self.alloc),
            last: 0,
        })?;
        Ok(NurseryId { key })
    }

    /// Starts a child and returns its index, which is the number of children started before it. The caller must ensure that
    /// the nursery is open and its body runs. Returns `AllocError` if memory runs out; every nursery then stays as it is.
    pub fn start(&mut self, id: NurseryId) -> Result<ChildIndex, AllocError>
        requires { HasNursery self.old id (λ n. n.body ≡ None) }
        ensures index { IfOk result (λ index. HasNursery self.old id (λ n. index ≡ length n.children)) }
        ensures started { OnOk result (Changes self.old self.new id with_start) }
        ensures err { OnErr result (SameNurseries self.old self.new) }
    {
        let index = self.nurseries[id.key].children.start()?;
        Ok(index)
    }

    /// Records that the child at `index` ended in `moment` with the exception `exc`, or without one if `exc` is `None`. The
    /// caller must ensure that the nursery is open, and that the child was started and has not ended. Does not allocate.
    pub fn child_ended(&mut self, id: NurseryId, index: ChildIndex, exc: Option<Exc>, moment: u64)
        requires { HasNursery self.old id (λ n. slice_get n.children index ≡ Some None) }
        ensures { Changes self.old self.new id (with_child index (option_map exc_of exc) moment) }
    {
        let members = &mut self.nurseries[id.key];
        members.children.end(index, exc);
        members.last = moment;
    }

    /// Records that the body ended in `moment` with the exception `exc`, or without one if `exc` is `None`. The caller must
    /// ensure that the nursery is open and its body has not ended. Does not allocate.
    pub fn body_ended(&mut self, id: NurseryId, exc: Option<Exc>, moment: u64)
        requires { HasNursery self.old id (λ n. n.body ≡ None) }
        ensures { Changes self.old self.new id (with_body (option_map exc_of exc) moment) }
    {
        let members = &mut self.nurseries[id.key];
        members.body = MemberEnd::Ended(exc);
        members.last = moment;
    }

    /// Returns whether the body and every child have ended, so that the task which waits for the nursery continues. The
    /// nursery must be open.
    pub fn settled(&self, id: NurseryId) -> bool
        requires { IsSome (nursery_at self.now id) }
        ensures { HasNursery self.now id (λ n. result ≡ is_settled n) }
    {
        let members = &self.nurseries[id.key];
        members.body.is_over() && members.children.all_ended()
    }

    /// Returns the cancel scope that the nursery was opened with. The nursery must be open.
    pub fn scope(&self, id: NurseryId) -> ScopeId
        requires { IsSome (nursery_at self.now id) }
        ensures { HasNursery self.now id (λ n. result ≡ n.scope) }
    {
        self.nurseries[id.key].scope
    }

    /// Returns the task that waits for the nursery, with which it was opened. The nursery must be open.
    pub fn waiter(&self, id: NurseryId) -> TaskId
        requires { IsSome (nursery_at self.now id) }
        ensures { HasNursery self.now id (λ n. result ≡ n.waiter) }
    {
        self.nurseries[id.key].waiter
    }

    /// Closes a nursery and returns the group of its members' exceptions, or `None` if no member ended with one. The nursery's
    /// cancel scope has not caught anything from the group yet. The caller must ensure that the nursery is open and settled.
    /// Returns `AllocError` if memory runs out; every nursery then stays as it is.
    pub fn close(&mut self, id: NurseryId) -> Result<Option<Exc>, AllocError>
        requires { HasNursery self.old id (λ n. is_settled n ≡ true) }
        ensures raised { IfOk result (λ exc. HasNursery self.old id (λ n. option_map exc_of exc ≡ raised_by n)) }
        ensures closed { OnOk result (Updates self.old self.new id None) }
        ensures err { OnErr result (SameNurseries self.old self.new) }
    {
        let room = self.nurseries[id.key].children.room(self.alloc)?;
        let members = self.nurseries.remove(id.key);
        let excs = member_excs(room, members.body, members.children.into_ends());
        Ok(group(Whose::Nursery(members.label), excs))
    }
}
