ghost use Rattle.std.specs.Prelude.{◌≡◌, ◌<◌, ◌++◌, ◌^◌, ℕ, Bool, List, Option, IfOk, OnOk, map, max};
ghost use Rattle.std.specs.Option.{option_map, is_some};
ghost use Rattle.exceptions.specs.Exceptions.{Label as TreeLabel, Exc as TreeExc};
ghost use Rattle.exceptions.specs.Held.{exc_of};
ghost use Rattle.job_story.specs.Held.{unboxed_exc};
ghost use Rattle.job_story.specs.Story.{Story, Tale};
ghost use Rattle.job_story.specs.Tell.{Scene, ended_at, failed_at, and_tale, handled_by, cleaned_by, tell_gathered, tell_child};
ghost use Rattle.job_story.specs.Tales.{IsStretchOf};

use crate::excs::{boxed_copy, copy_of, move_all, with_exc};
use block_exits::{handler_exc, outcome_after};
use exceptions::{Exc, Label, Whose, group};
use job_meaning::Clock;
use std::alloc::{AllocError, Global};

/// How a stretch of the walk ended, and what is recorded of the children that it started in a nursery that is still open.
#[derive(Drop)]
pub struct Stretch {
    /// The moment in which it ended.
    pub end: u64,
    /// The exception with which it ended, or `None`.
    pub exc: Option<Exc>,
    /// The moment in which the last of those children ended, or 0 if there are none.
    pub open_until: u64,
    /// The exceptions of those children, in the order of their starts.
    pub open_excs: Vec<Exc>,
}

impl Stretch {
    // Returns the moment in which it ended.
    pub(crate) fn end(&self) -> u64
        ensures { result ≡ self.now.end }
    {
        self.end
    }

    // Returns whether it ended with an exception.
    pub(crate) fn has_failed(&self) -> bool
        ensures { result ≡ is_some self.now.exc }
    {
        self.exc.is_some()
    }

    // Returns a copy of its exception, if it ended with one.
    pub(crate) fn copy_exc(&self, alloc: Global) -> Result<Option<Exc>, AllocError>
        ensures { IfOk result (λ copy. option_map exc_of copy ≡ option_map exc_of self.now.exc) }
    {
        copy_of(alloc, &self.exc)
    }

    // Returns a copy of its exception in a box, if it ended with one.
    pub(crate) fn box_exc(&self, alloc: Global) -> Result<Option<Box<Exc>>, AllocError>
        ensures { IfOk result (λ copy. unboxed_exc copy ≡ option_map exc_of self.now.exc) }
    {
        boxed_copy(alloc, &self.exc)
    }

    // Returns a stretch that ended in this moment without an exception, and started no child.
    pub(crate) fn at(alloc: Global, moment: u64) -> Stretch
        ensures { (own : List TreeLabel) (story : Story) → IsStretchOf result (ended_at (record { at = moment; own = own }) story) }
    {
        Stretch {
            end: moment,
            exc: None,
            open_until: 0,
            open_excs: Vec::new(alloc),
        }
    }

    // Returns a stretch that ended in this moment with an exception, and started no child.
    pub(crate) fn failure(alloc: Global, exc: Exc, moment: u64) -> Stretch
        ensures { (own : List TreeLabel) (story : Story) →
            IsStretchOf result (failed_at (exc_of exc) (record { at = moment; own = own }) story) }
    {
        Stretch {
            end: moment,
            exc: Some(exc),
            open_until: 0,
            open_excs: Vec::new(alloc),
        }
    }

    // Joins this stretch, which ended without an exception, and the next one: the result has the next one's end, and the
    // children of both.
    #[inline(never)]
    pub(crate) fn join(self, next: Stretch) -> Result<Stretch, AllocError>
        ensures { IfOk result (λ w. (a b : Tale) → IsStretchOf self a → IsStretchOf next b → IsStretchOf w (and_tale a b)) }
    {
        let Stretch {
            open_until: before,
            mut open_excs,
            ..
        } = self;
        let Stretch {
            end,
            exc,
            open_until,
            open_excs: next_excs,
        } = next;
        move_all(&mut open_excs, next_excs)?;
        Ok(Stretch {
            end,
            exc,
            open_until: before.max(open_until),
            open_excs,
        })
    }

    // Joins a `try` body and its handler. What the handler did not handle propagates, in a group with what it raised itself.
    #[inline(never)]
    pub(crate) fn join_handler(
        self,
        alloc: Global,
        next: Stretch,
        rest: Option<Exc>,
    ) -> Result<Stretch, AllocError>
        ensures { IfOk result (λ w. (matched : TreeExc) (a b : Tale) → IsStretchOf self a → IsStretchOf next b
            → IsStretchOf w (handled_by matched (option_map exc_of rest) a b)) }
    {
        let exc = handler_exc(alloc, next.exc, rest)?;
        let stretch = self.join(Stretch { exc, ..next })?;
        Ok(stretch)
    }

    // Joins a `try` and its `finally` block. An exception of that block replaces the earlier one.
    #[inline(never)]
    pub(crate) fn join_cleanup(self, alloc: Global, next: Stretch) -> Result<Stretch, AllocError>
        ensures { IfOk result (λ w. (a b : Tale) → IsStretchOf self a → IsStretchOf next b → IsStretchOf w (cleaned_by a b)) }
    {
        let before = copy_of(alloc, &self.exc)?;
        let exc = outcome_after(before, next.exc);
        let stretch = self.join(Stretch { exc, ..next })?;
        Ok(stretch)
    }

    // Ends a nursery whose body is this stretch: it ends after its last member, and the exceptions of the body and the children
    // are one group.
    #[inline(never)]
    pub(crate) fn gather(
        self,
        alloc: Global,
        clock: Clock,
        label: &Label,
    ) -> Result<Stretch, AllocError>
        requires { max self.end self.open_until < 2 ^ 63 }
        ensures { IfOk result (λ w. (a : Tale) → IsStretchOf self a → IsStretchOf w (tell_gathered clock label.now a)) }
    {
        let Stretch {
            end,
            exc,
            open_until,
            open_excs,
        } = self;
        let parts = with_exc(alloc, exc, open_excs)?;
        Ok(Stretch {
            end: clock.a_round_after(end.max(open_until)),
            exc: group(Whose::Nursery(label.copy(alloc)?), parts),
            open_until: 0,
            open_excs: Vec::new(alloc),
        })
    }

    // Returns the walk of a started task as the task that started it sees it: that one continues in the moment of the start, with
    // one more child.
    #[inline(never)]
    pub(crate) fn into_child(self, alloc: Global, moment: u64) -> Result<Stretch, AllocError>
        ensures { IfOk result (λ w. (label : TreeLabel) (home : Option TreeLabel) (scene : Scene) (begins : ℕ) (own : List TreeLabel)
            (a : Tale) → IsStretchOf self a → IsStretchOf w (tell_child label home scene begins a (record { at = moment; own = own }))) }
    {
        let Stretch { end, exc, .. } = self;
        let open_excs = with_exc(alloc, exc, Vec::new(alloc))?;
        Ok(Stretch {
            end: moment,
            exc: None,
            open_until: end,
            open_excs,
        })
    }
}
