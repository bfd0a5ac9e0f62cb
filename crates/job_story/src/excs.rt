ghost use Rattle.std.specs.Prelude.{◌≡◌, List, Option, IfOk, OnOk, map, ◌++◌};
ghost use Rattle.std.specs.Option.{option_map, option_copied};
ghost use Rattle.exceptions.specs.Held.{exc_of};
ghost use Rattle.job_meaning.specs.Walk.{with_exc};
ghost use Rattle.job_story.specs.Held.{unboxed_exc};

use exceptions::{Exc, Label};
use std::alloc::{AllocError, Global};

// Returns a copy of an exception, if there is one.
pub(crate) fn copy_of(alloc: Global, exc: &Option<Exc>) -> Result<Option<Exc>, AllocError>
    ensures { IfOk result (λ copy. option_map exc_of copy ≡ option_map exc_of exc.now) }
{
    match exc {
        None => Ok(None),
        Some(exc) => Ok(Some(exc.copy(alloc)?)),
    }
}

// Returns a copy of an exception, in a box.
pub(crate) fn copy_in_box(alloc: Global, exc: &Exc) -> Result<Box<Exc>, AllocError>
    ensures { IfOk result (λ copy. exc_of copy.value ≡ exc_of exc.now) }
{
    let copy = exc.copy(alloc)?;
    let copy = Box::new(alloc, copy)?;
    Ok(copy)
}

// Returns a copy of an exception in a box, if there is one.
pub(crate) fn boxed_copy(alloc: Global, exc: &Option<Exc>) -> Result<Option<Box<Exc>>, AllocError>
    ensures { IfOk result (λ copy. unboxed_exc copy ≡ option_map exc_of exc.now) }
{
    match exc {
        None => Ok(None),
        Some(exc) => Ok(Some(copy_in_box(alloc, exc)?)),
    }
}

// Returns a copy of a label, if there is one.
#[inline(never)]
pub(crate) fn copy_label(alloc: Global, label: Option<&Label>) -> Result<Option<Label>, AllocError>
    ensures { IfOk result (λ copy. copy ≡ option_copied label.entry) }
{
    match label {
        None => Ok(None),
        Some(label) => Ok(Some(label.copy(alloc)?)),
    }
}

// Moves all of a list to the end of another.
pub(crate) fn move_all<T: Drop>(to: &mut Vec<T>, mut from: Vec<T>) -> Result<(), AllocError>
    ensures { OnOk result (to.new.items ≡ to.old.items ++ from.items) }
{
    to.append(&mut from)
}

// Returns an exception, if there is one, followed by others.
pub(crate) fn with_exc(
    alloc: Global,
    exc: Option<Exc>,
    others: Vec<Exc>,
) -> Result<Vec<Exc>, AllocError>
    ensures { IfOk result (λ all. map exc_of all.items ≡ with_exc (option_map exc_of exc) (map exc_of others.items)) }
{
    let Some(exc) = exc else {
        return Ok(others);
    };
    let mut all = Vec::new(alloc);
    all.push(exc)?;
    move_all(&mut all, others)?;
    Ok(all)
}
