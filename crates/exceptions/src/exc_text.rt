ghost use Rattle.std.specs.Prelude.{◌≡◌, ◌++◌, [], ◌∷◌, OnOk, Some, decimal, codes, take};
ghost use Rattle.exceptions.specs.Held.{exc_of, excs_of, whose_of};
ghost use Rattle.exceptions.specs.Texts.{exc_text, parts_text, more_text, whose_text, end_text};

use crate::label_text::{push_label, push_place};
use crate::{Exc, Whose};
use std::alloc::AllocError;

/// Appends the origin of a group of exceptions: the label of a nursery, or `*` for a handler. Returns `AllocError` if memory runs
/// out.
pub fn push_whose(out: &mut Vec<u8>, whose: &Whose) -> Result<(), AllocError>
    ensures { OnOk result (out.new.items ≡ out.old.items ++ whose_text (whose_of whose.now)) }
{
    match whose {
        Whose::Nursery(label) => push_label(out, label),
        Whose::Handler => out.extend_from_slice(b"*"),
    }
}

/// Appends the text of an exception, as `DiskFull(writer@4)`. A group has its parts in brackets, as
/// `workers[DiskFull(writer@4)]`. Returns `AllocError` if memory runs out.
#[cycle(exc)]
pub fn push_exc(out: &mut Vec<u8>, exc: &Exc) -> Result<(), AllocError>
    ensures { OnOk result (out.new.items ≡ out.old.items ++ exc_text (exc_of exc.now)) }
{
    match exc {
        Exc::Cancelled => out.extend_from_slice(b"Cancelled"),
        Exc::Raised { name, task, tick } => {
            out.extend_from_slice(name.bytes())?;
            push_place(out, task, *tick)
        }
        Exc::TooSlow { scope, tick } => {
            out.extend_from_slice(b"TooSlow")?;
            push_place(out, scope, *tick)
        }
        Exc::Group { whose, parts } => {
            push_whose(out, whose)?;
            out.extend_from_slice(b"[")?;
            push_parts(out, parts.as_slice())?;
            out.extend_from_slice(b"]")
        }
    }
}

// Appends the parts of a group, with a comma and a space between them.
#[cycle(exc)]
fn push_parts(out: &mut Vec<u8>, parts: &[Exc]) -> Result<(), AllocError>
    ensures { OnOk result (out.new.items ≡ out.old.items ++ parts_text (excs_of parts.now)) }
{
    let Some((first, others)) = parts.split_first() else {
        return Ok(());
    };
    push_exc(out, first)?;
    push_more(out, others)
}

// Appends each part, with a comma and a space before it.
#[cycle(exc)]
fn push_more(out: &mut Vec<u8>, parts: &[Exc]) -> Result<(), AllocError>
    ensures { OnOk result (out.new.items ≡ out.old.items ++ more_text (excs_of parts.now)) }
{
    'parts: for part in parts {
        out.extend_from_slice(b", ")?;
        push_exc(out, part)?;
    }
    Ok(())
}

/// Appends how a task ended that ended with this exception: `cancelled`, or `raised` and the exception. Returns `AllocError` if
/// memory runs out.
pub fn push_raised(out: &mut Vec<u8>, exc: &Exc) -> Result<(), AllocError>
    ensures { OnOk result (out.new.items ≡ out.old.items ++ end_text (Some (exc_of exc.now))) }
{
    match exc {
        Exc::Cancelled => out.extend_from_slice(b"cancelled"),
        Exc::Raised { .. } | Exc::TooSlow { .. } | Exc::Group { .. } => {
            out.extend_from_slice(b"raised ")?;
            push_exc(out, exc)
        }
    }
}
