ghost use Rattle.std.specs.Prelude.{◌≡◌, IfOk};
ghost use Rattle.task_machine.specs.Frames.{unboxed_exc};

use exceptions::Exc;
use std::alloc::{AllocError, Global};

/// Boxes an exception, if there is one, so that a field for an optional exception that is rarely present takes little space.
/// The only error is that memory runs out; it does not occur for `None`. `unbox_exc` unboxes it.
pub fn box_exc(alloc: Global, exc: Option<Exc>) -> Result<Option<Box<Exc>>, AllocError>
    ensures { IfOk result (λ in_box. unboxed_exc in_box ≡ exc) }
{
    let Some(exc) = exc else {
        return Ok(None);
    };
    let in_box = Box::new(alloc, exc)?;
    Ok(Some(in_box))
}

/// Unboxes an exception that `box_exc` boxed. Takes no memory.
pub fn unbox_exc(in_box: Option<Box<Exc>>) -> Option<Exc>
    ensures { result ≡ unboxed_exc in_box }
{
    let Some(in_box) = in_box else {
        return None;
    };
    Some(Box::into_inner(in_box))
}
