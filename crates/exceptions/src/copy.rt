ghost use Rattle.std.specs.Prelude.{◌≡◌, IfOk};
ghost use Rattle.exceptions.specs.Held.{exc_of, excs_of, whose_of};

use crate::exc::{Exc, Parts, Whose};
use std::alloc::{AllocError, Global};

impl Whose {
    // Returns an equal value, or `AllocError` if memory runs out.
    pub(crate) fn copy(&self, alloc: Global) -> Result<Whose, AllocError>
        ensures { IfOk result (λ whose. whose_of whose ≡ whose_of self.now) }
    {
        match self {
            Whose::Nursery(label) => Ok(Whose::Nursery(label.copy(alloc)?)),
            Whose::Handler => Ok(Whose::Handler),
        }
    }
}

impl Exc {
    /// Returns an equal exception, or `AllocError` if memory runs out.
    pub fn copy(&self, alloc: Global) -> Result<Exc, AllocError>
        ensures { IfOk result (λ exc. exc_of exc ≡ exc_of self.now) }
    {
        copy_of(alloc, self)
    }
}

// Returns an equal exception. The copy of a group has equal parts.
#[cycle(copying)]
fn copy_of(alloc: Global, exc: &Exc) -> Result<Exc, AllocError>
    ensures { IfOk result (λ copy. exc_of copy ≡ exc_of exc.now) }
{
    match exc {
        Exc::Cancelled => Ok(Exc::Cancelled),
        Exc::Raised { name, task, tick } => Ok(Exc::Raised {
            name: *name,
            task: task.copy(alloc)?,
            tick: *tick,
        }),
        Exc::TooSlow { scope, tick } => Ok(Exc::TooSlow {
            scope: scope.copy(alloc)?,
            tick: *tick,
        }),
        Exc::Group { whose, parts } => {
            let whose = whose.copy(alloc)?;
            let copies = copies_of(alloc, parts.as_slice())?;
            Ok(Exc::Group {
                whose,
                parts: Parts::new(copies),
            })
        }
    }
}

// Returns equal exceptions, in order.
#[cycle(copying)]
fn copies_of(alloc: Global, parts: &[Exc]) -> Result<Vec<Exc>, AllocError>
    ensures { IfOk result (λ copies. excs_of copies.items ≡ excs_of parts.now) }
{
    let mut copies = Vec::new(alloc);
    'parts: for part in parts {
        let copy = copy_of(alloc, part)?;
        copies.push(copy)?;
    }
    Ok(copies)
}
